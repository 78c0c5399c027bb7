//! Reading fields from left to right.

ghost use Rattle.std.specs.Prelude.{◌≡◌, ◌≤◌, ◌<◌, true, false, length, IfOk, OnOk, OnErr, MatchOption, if◌then◌else◌, Some, None};
ghost use Rattle.std.specs.Int.{w32};
ghost use Rattle.misp_ids.specs.Names.{is_api_key};
ghost use Rattle.misp_orgs.specs.Keys.{HasPartner};
ghost use Rattle.misp_orgs.specs.Org.{name_limit};
ghost use Rattle.misp_elem.specs.Fields.{is_text};
ghost use Rattle.misp_elem.specs.Reading.{byte_at, org_at, inst_at, number_at, flag_at, text_at};
ghost use Rattle.misp_elem.specs.RowReading.{flags_at};
ghost use Rattle.misp_admin_rows.specs.Reads.{Reads, Gives};
ghost use Rattle.misp_admin_rows.specs.Rows.{api_key_at, optional_inst_at, partner_at, role_at};

use crate::fault::{BadField, Stop};
use misp_ids::{ApiKey, InstId, OrgId, Text, Uid};
use misp_orgs::{Role, is_short};
use std::alloc::Global;
use std::marker::Model;
use std::str;

// The key that these bytes spell, if they spell one.
fn api_key(bytes: &[u8]) -> Option<ApiKey>
    ensures { result ≡ (if is_api_key bytes.now then Some bytes.now else None) }
{
    match str::from_utf8(bytes) {
        Ok(text) => ApiKey::read(text),
        Err(_) => None,
    }
}

// The text that these bytes are, if they are text that is short enough for an organisation's name.
fn org_name(bytes: &[u8]) -> Option<&str>
    ensures { MatchOption result
        (is_text 0 name_limit bytes.now ≡ false)
        (λ text. (text.now ≡ bytes.now) × (is_text 0 name_limit bytes.now ≡ true)) }
{
    match str::from_utf8(bytes) {
        Ok(text) if is_short(text) => Some(text),
        _ => None,
    }
}

/// Bytes that are read from the left. A contract sees those that are left.
#[derive(Drop)]
pub(crate) struct Reader<'a> {
    rest: &'a [u8],
}

impl<'a> Model for Reader<'a> {
    ghost use Rattle.std.specs.Prelude.{ℕ, List};

    ghost Value = { List ℕ };

    ghost view = { λ r. r.rest.now };
}

impl<'a> Reader<'a> {
    pub(crate) fn of(bytes: &'a [u8]) -> Reader<'a>
        ensures { result ≡ bytes.now }
    {
        Reader { rest: bytes }
    }
}

impl Reader<'_> {
    /// Nothing is left.
    pub(crate) fn end(&self) -> Result<(), BadField>
        ensures ok { OnOk result (length self.now ≡ 0) }
        ensures err { OnErr result (0 < length self.now) }
    {
        if self.rest.is_empty() {
            Ok(())
        } else {
            Err(BadField)
        }
    }

    fn byte(&mut self) -> Result<u8, BadField>
        ensures { Reads result self.new (byte_at self.old) }
    {
        match self.rest {
            [] => Err(BadField),
            [first, rest @ ..] => {
                self.rest = rest;
                Ok(*first)
            }
        }
    }

    pub(crate) fn org(&mut self) -> Result<OrgId, BadField>
        ensures { Reads result self.new (org_at self.old) }
    {
        if self.rest.len() < 16 {
            return Err(BadField);
        }
        let (front, rest) = self.rest.split_at(16);
        self.rest = rest;
        let mut number = [0; 16];
        number.copy_from_slice(front);
        Ok(OrgId(Uid(u128::from_be_bytes(number))))
    }

    #[tactic(auto, unfolding(misp_elem::specs::Reading::inst_at))]
    pub(crate) fn inst(&mut self) -> Result<InstId, BadField>
        ensures { Reads result self.new (inst_at self.old) }
    {
        let len = usize::from(self.byte()?);
        if self.rest.len() < len {
            return Err(BadField);
        }
        let (name, rest) = self.rest.split_at(len);
        self.rest = rest;
        InstId::from_bytes(name).ok_or(BadField)
    }

    #[tactic(auto, unfolding(crate::specs::Rows::api_key_at), using(crate::proofs::Texts::short_key))]
    pub(crate) fn api_key(&mut self) -> Result<ApiKey, BadField>
        ensures { Reads result self.new (api_key_at self.old) }
    {
        if self.rest.len() < 40 {
            return Err(BadField);
        }
        let (key, rest) = self.rest.split_at(40);
        self.rest = rest;
        match api_key(key) {
            Some(key) => Ok(key),
            None => Err(BadField),
        }
    }

    #[tactic(auto, unfolding(misp_elem::specs::RowReading::flags_at))]
    pub(crate) fn flags(&mut self) -> Result<(bool, bool), BadField>
        ensures { Reads result self.new (flags_at self.old) }
    {
        match self.byte()? {
            0 => Ok((false, false)),
            1 => Ok((true, false)),
            2 => Ok((false, true)),
            3 => Ok((true, true)),
            _ => Err(BadField),
        }
    }

    #[tactic(auto, unfolding(crate::specs::Rows::role_at, misp_elem::specs::Reading::between_at))]
    pub(crate) fn role(&mut self) -> Result<Role, BadField>
        ensures { Reads result self.new (role_at self.old) }
    {
        match self.byte()? {
            0 => Ok(Role::Reader),
            1 => Ok(Role::User),
            2 => Ok(Role::Publisher),
            3 => Ok(Role::OrgAdmin),
            4 => Ok(Role::Sync),
            5 => Ok(Role::SiteAdmin),
            _ => Err(BadField),
        }
    }

    #[tactic(auto, unfolding(misp_elem::specs::Reading::flag_at))]
    fn flag(&mut self) -> Result<bool, BadField>
        ensures { Reads result self.new (flag_at self.old) }
    {
        match self.byte()? {
            0 => Ok(false),
            1 => Ok(true),
            _ => Err(BadField),
        }
    }

    #[tactic(auto, unfolding(crate::specs::Rows::optional_inst_at))]
    fn optional_inst(&mut self) -> Result<Option<InstId>, BadField>
        ensures { Reads result self.new (optional_inst_at self.old) }
    {
        if self.flag()? {
            Ok(Some(self.inst()?))
        } else {
            Ok(None)
        }
    }

    /// The partner of a key in this role.
    #[tactic(auto, unfolding(crate::specs::Rows::partner_at))]
    pub(crate) fn partner(&mut self, role: Role) -> Result<Option<InstId>, BadField>
        ensures partner { Reads result self.new (partner_at role self.old) }
        ensures has { IfOk result (λ partner. HasPartner role partner) }
    {
        let partner = self.optional_inst()?;
        if partner.is_some() == matches!(role, Role::Sync) {
            Ok(partner)
        } else {
            Err(BadField)
        }
    }

    fn u32(&mut self) -> Result<u32, BadField>
        ensures { Reads result self.new (number_at w32 self.old) }
    {
        if self.rest.len() < 4 {
            return Err(BadField);
        }
        let (front, rest) = self.rest.split_at(4);
        self.rest = rest;
        Ok(u32::from_be_bytes([front[0], front[1], front[2], front[3]]))
    }

    /// The name of an organisation.
    #[tactic(auto, unfolding(misp_elem::specs::Reading::text_at))]
    pub(crate) fn org_name(&mut self, alloc: Global) -> Result<Text, Stop>
        ensures text { Gives result self.new (text_at 0 name_limit self.old) }
        ensures short { IfOk result (λ text. length text ≤ name_limit) }
    {
        let len = self.u32()? as usize;
        if self.rest.len() < len {
            return Err(Stop::BadField);
        }
        let (name, rest) = self.rest.split_at(len);
        self.rest = rest;
        match org_name(name) {
            Some(name) => Ok(Text::of(String::from_str(alloc, name)?)),
            None => Err(Stop::BadField),
        }
    }
}
