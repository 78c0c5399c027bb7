//! Lists that are written, one item after another.

ghost use Rattle.std.specs.Prelude.{◌≡◌, ◌++◌, OnOk};
ghost use Rattle.serde_json.specs.Data.{Data};
ghost use Rattle.serde_json.specs.Written.{compact_text};
ghost use Rattle.misp_format.specs.Fields.{GroupNames as Names, list_data};
ghost use Rattle.misp_format.specs.Names.{names_in};
ghost use Rattle.misp_format.specs.Tokens.{put_value, put_member};

use crate::writing::group_names::GroupNames;
use crate::writing::writer::Writer;
use misp_ids::NoMemory;
use std::alloc::Global;
use std::mem;

/// How the items of a list are written.
pub(crate) trait Listed {
    type Item;

    ghost value: { Names → Self.Item → Data };

    fn put(out: &mut Writer, names: &GroupNames, item: &Self::Item) -> Result<(), NoMemory>
        ensures { OnOk result (out.new
            ≡ put_value (value (names_in names.now) item.now) out.old) };
}

/// The list of these items.
#[tactic(auto, using(crate::proofs::Texts::array_put))]
pub(crate) fn put_items<L: Listed>(
    out: &mut Writer,
    names: &GroupNames,
    items: &[L::Item],
) -> Result<(), NoMemory>
    ensures { OnOk result (out.new
        ≡ put_value (list_data (L.value (names_in names.now)) items.now) out.old) }
{
    out.begin_array()?;
    for item in items {
        L::put(out, names, item)?;
    }
    out.end_array()
}

/// Puts the text of the list of these items at the end of a text.
pub(crate) fn put_list_text<L: Listed>(
    text: &mut Vec<u8>,
    alloc: Global,
    names: &GroupNames,
    items: &[L::Item],
) -> Result<(), NoMemory>
    ensures { OnOk result (text.new.items ≡ text.old.items
        ++ compact_text (list_data (L.value (names_in names.now)) items.now)) }
{
    let mut out = Writer::behind(alloc, mem::replace(text, Vec::new(alloc)));
    let put = put_items::<L>(&mut out, names, items);
    *text = out.into_text();
    put?;
    Ok(())
}

/// The member of this name, which is the list of these items.
#[tactic(auto, unfolding(crate::specs::Tokens::put_member))]
pub(crate) fn put_list<L: Listed>(
    out: &mut Writer,
    name: &str,
    names: &GroupNames,
    items: &[L::Item],
) -> Result<(), NoMemory>
    ensures { OnOk result (out.new
        ≡ put_member name.now (list_data (L.value (names_in names.now)) items.now) out.old) }
{
    out.name(name)?;
    put_items::<L>(out, names, items)?;
    Ok(())
}
