//! Why a request is not read.

ghost use Rattle.std.specs.Prelude.{◌≡◌, IfOk};
ghost use Rattle.misp_api.specs.Request.{field_place};
ghost use Rattle.misp_api.specs.Unread.{Refuses};

use misp_fields::{Need, write_need};
use misp_format::FormatFault;
use misp_ids::{Refusal, RuleName, Text};
use std::alloc::{AllocError, AllocFailed, Global};

/// Why a request was not read.
#[derive(Drop)]
pub enum AskFault {
    Refused(Refusal),
    NoMemory,
}

impl From<AllocError> for AskFault {
    ghost use Rattle.misp_api.specs.declared.request.AskFault.TheVariants.{NoMemory};

    ghost from_gives = { λ _ fault. fault ≡ NoMemory };

    fn from(_error: AllocError) -> AskFault {
        AskFault::NoMemory
    }
}

impl<T: Drop> From<AllocFailed<T>> for AskFault {
    ghost use Rattle.misp_api.specs.declared.request.AskFault.TheVariants.{NoMemory};

    ghost from_gives = { λ _ fault. fault ≡ NoMemory };

    fn from(_error: AllocFailed<T>) -> AskFault {
        AskFault::NoMemory
    }
}

// The path of a faulty member and its need, as a refusal shows them.
fn field_place(alloc: Global, path: &Text, need: Need) -> Result<Text, AllocError>
    ensures { IfOk result (λ place. place ≡ field_place path.now need) }
{
    let mut text = String::from_str(alloc, path.as_str())?;
    text.push_str(" ")?;
    write_need(&mut text, need)?;
    Ok(Text::of(text))
}

/// Why a body that is not of its form is refused.
pub(crate) fn fault(alloc: Global, fault: FormatFault) -> AskFault
    ensures { Refuses fault result }
{
    match fault {
        FormatFault::NoJson => AskFault::Refused(Refusal::bare(alloc, RuleName::BadJson)),
        FormatFault::BadField { path, need } => match field_place(alloc, &path, need) {
            Ok(place) => AskFault::Refused(Refusal {
                name: RuleName::BadField,
                place,
            }),
            Err(_) => AskFault::NoMemory,
        },
        FormatFault::BinaryType { path } => AskFault::Refused(Refusal {
            name: RuleName::BinaryType,
            place: path,
        }),
        FormatFault::NoMemory => AskFault::NoMemory,
    }
}
