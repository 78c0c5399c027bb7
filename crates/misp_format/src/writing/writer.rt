//! A JSON text that is put down token by token.

ghost use Rattle.std.specs.Prelude.{◌≡◌, ◌++◌, OnOk};
ghost use Rattle.json.specs.Print.{print};
ghost use Rattle.json.specs.Token as tokens;
ghost use Rattle.serde_json.specs.Data.{null, string, boolean};
ghost use Rattle.misp_dates.specs.Moments.{moment_text};
ghost use Rattle.misp_format.specs.Fields.{number_data, count_data, uuid_data, optional_uuid_data, moment_if_known, text_if_any, org_data};
ghost use Rattle.misp_format.specs.Tokens.{behind, push, put_value, put_member, put_some};

use json::Writer as TokenWriter;
use misp_elem::Moment;
use misp_ids::{NoMemory, OrgId, Uid};
use std::alloc::Global;
use std::marker::Model;
use uuid::Uuid;

/// A JSON text that is put down token by token, after another text. The commas come by themselves.
/// A contract sees both.
#[derive(Drop)]
pub(crate) struct Writer {
    pub(crate) alloc: Global,
    out: TokenWriter,
}

impl Model for Writer {
    ghost use Rattle.misp_format.specs.Tokens.{PutDown};

    ghost Value = { PutDown };

    ghost view = { λ w. record { before = w.out.before; tokens = w.out.tokens } };
}

impl Writer {
    /// Nothing yet, after this text.
    pub(crate) fn behind(alloc: Global, text: Vec<u8>) -> Writer
        ensures { result ≡ behind text.items }
    {
        Writer {
            alloc,
            out: TokenWriter::new(text),
        }
    }

    /// The text before, and then what was put down.
    pub(crate) fn into_text(self) -> Vec<u8>
        ensures { result.items ≡ self.before ++ print self.tokens }
    {
        self.out.into_inner()
    }

    #[tactic(auto, unfolding(crate::specs::Tokens::push))]
    pub(crate) fn begin_object(&mut self) -> Result<(), NoMemory>
        ensures { OnOk result (self.new ≡ push tokens.begin_object self.old) }
    {
        Ok(self.out.begin_object()?)
    }

    #[tactic(auto, unfolding(crate::specs::Tokens::push))]
    pub(crate) fn end_object(&mut self) -> Result<(), NoMemory>
        ensures { OnOk result (self.new ≡ push tokens.end_object self.old) }
    {
        Ok(self.out.end_object()?)
    }

    #[tactic(auto, unfolding(crate::specs::Tokens::push))]
    pub(crate) fn begin_array(&mut self) -> Result<(), NoMemory>
        ensures { OnOk result (self.new ≡ push tokens.begin_array self.old) }
    {
        Ok(self.out.begin_array()?)
    }

    #[tactic(auto, unfolding(crate::specs::Tokens::push))]
    pub(crate) fn end_array(&mut self) -> Result<(), NoMemory>
        ensures { OnOk result (self.new ≡ push tokens.end_array self.old) }
    {
        Ok(self.out.end_array()?)
    }

    #[tactic(auto, unfolding(crate::specs::Tokens::push, crate::specs::Tokens::put_value))]
    pub(crate) fn null(&mut self) -> Result<(), NoMemory>
        ensures { OnOk result (self.new ≡ put_value null self.old) }
    {
        Ok(self.out.null()?)
    }

    /// The name of a member, whose value comes next.
    #[tactic(auto, unfolding(crate::specs::Tokens::push))]
    pub(crate) fn name(&mut self, name: &str) -> Result<(), NoMemory>
        ensures { OnOk result (self.new ≡ push (tokens.key name.now) self.old) }
    {
        Ok(self.out.key(name)?)
    }

    #[tactic(auto, unfolding(crate::specs::Tokens::push, crate::specs::Tokens::put_value, crate::specs::Tokens::put_member))]
    pub(crate) fn text(&mut self, name: &str, text: &str) -> Result<(), NoMemory>
        ensures { OnOk result (self.new
            ≡ put_member name.now (string text.now) self.old) }
    {
        self.out.key(name)?;
        Ok(self.out.string(text)?)
    }

    #[tactic(auto, unfolding(crate::specs::Tokens::push, crate::specs::Tokens::put_value, crate::specs::Tokens::put_member))]
    pub(crate) fn flag(&mut self, name: &str, flag: bool) -> Result<(), NoMemory>
        ensures { OnOk result (self.new ≡ put_member name.now (boolean flag) self.old) }
    {
        self.out.key(name)?;
        Ok(self.out.boolean(flag)?)
    }

    /// A number, as a text.
    #[tactic(auto, unfolding(crate::specs::Tokens::push, crate::specs::Tokens::put_value, crate::specs::Tokens::put_member))]
    pub(crate) fn number(&mut self, name: &str, number: u64) -> Result<(), NoMemory>
        ensures { OnOk result (self.new
            ≡ put_member name.now (number_data number) self.old) }
    {
        self.out.key(name)?;
        Ok(self.out.quoted_u64(number)?)
    }

    /// A number, as a number.
    #[tactic(auto, unfolding(crate::specs::Tokens::push, crate::specs::Tokens::put_value, crate::specs::Tokens::put_member))]
    pub(crate) fn count(&mut self, name: &str, number: u64) -> Result<(), NoMemory>
        ensures { OnOk result (self.new
            ≡ put_member name.now (count_data number) self.old) }
    {
        self.out.key(name)?;
        Ok(self.out.u64(number)?)
    }

    pub(crate) fn uuid(&mut self, name: &str, uuid: &Uid) -> Result<(), NoMemory>
        ensures { OnOk result (self.new
            ≡ put_member name.now (uuid_data uuid.now) self.old) }
    {
        let mut buffer = [0; 36];
        let form = Uuid::from_u128(uuid.0).hyphenated();
        self.text(name, form.encode_lower(&mut buffer))
    }

    /// An identifier, or an empty text where there is none.
    pub(crate) fn optional_uuid(&mut self, name: &str, uuid: &Option<Uid>) -> Result<(), NoMemory>
        ensures { OnOk result (self.new
            ≡ put_member name.now (optional_uuid_data uuid.now) self.old) }
    {
        match uuid {
            Some(uuid) => self.uuid(name, uuid),
            None => self.text(name, ""),
        }
    }

    fn moment(&mut self, name: &str, moment: &Moment) -> Result<(), NoMemory>
        ensures { OnOk result (self.new
            ≡ put_member name.now (string (moment_text moment.now)) self.old) }
    {
        let _microseconds = moment.get();
        match str::from_utf8(&moment.text()) {
            Ok(text) => self.text(name, text),
            Err(_) => unreachable!(),
        }
    }

    /// A moment, where it is known.
    pub(crate) fn moment_if_known(
        &mut self,
        name: &str,
        moment: &Option<Moment>,
    ) -> Result<(), NoMemory>
        ensures { OnOk result (self.new
            ≡ put_some name.now (moment_if_known moment.now) self.old) }
    {
        match moment {
            Some(moment) => self.moment(name, moment),
            None => Ok(()),
        }
    }

    /// A text, where it is not empty.
    pub(crate) fn text_if_any(&mut self, name: &str, text: &str) -> Result<(), NoMemory>
        ensures { OnOk result (self.new ≡ put_some name.now (text_if_any text.now) self.old) }
    {
        if text.is_empty() {
            return Ok(());
        }
        self.text(name, text)
    }

    /// An organisation, and the name that it is known by.
    #[tactic(auto, unfolding(crate::specs::Tokens::put_member), using(crate::proofs::Texts::object_put))]
    pub(crate) fn org(&mut self, name: &str, org: &OrgId, org_name: &str) -> Result<(), NoMemory>
        ensures { OnOk result (self.new
            ≡ put_member name.now (org_data org.now org_name.now) self.old) }
    {
        self.name(name)?;
        self.begin_object()?;
        self.text("name", org_name)?;
        self.uuid("uuid", &org.0)?;
        self.end_object()?;
        Ok(())
    }
}
