//! What is wrong with the bytes of a request.

ghost use Rattle.std.specs.Prelude.{◌≡◌, IfOk};
ghost use Rattle.misp_http.specs.Faults.{head_fault_rule, head_fault_place, fault_rule, fault_place, fault_refusal};

use misp_ids::{NoMemory, Refusal, RuleName, Text};
use std::alloc::Global;

/// What is wrong with a head.
#[derive(Clone, Copy, PartialEq, Eq)]
pub enum HeadFault {
    /// There are too many headers.
    ManyHeaders,
    /// The body is encoded (RFC 9112, section 6.1).
    Encoding,
    /// The length of the body is said twice, or not in 1 to 19 digits (RFC 9112, section 6.2).
    Length,
    /// The body is too long.
    LongBody,
}

impl HeadFault {
    fn rule(self) -> RuleName
        ensures { result ≡ head_fault_rule self }
    {
        match self {
            HeadFault::ManyHeaders | HeadFault::LongBody => RuleName::TooLarge,
            HeadFault::Encoding | HeadFault::Length => RuleName::BadRequest,
        }
    }

    fn place(self) -> &'static str
        ensures { result.now ≡ head_fault_place self }
    {
        match self {
            HeadFault::ManyHeaders => "headers",
            HeadFault::Encoding => "encoding",
            HeadFault::Length => "length",
            HeadFault::LongBody => "body",
        }
    }
}

/// What is wrong with the bytes of a request.
#[derive(Clone, Copy, PartialEq, Eq)]
pub enum Fault {
    /// They begin with no head, whatever follows.
    NoHead,
    /// No head ends within the most bytes that are looked at.
    LongHead,
    BadHead(HeadFault),
}

impl Fault {
    fn rule(self) -> RuleName
        ensures { result ≡ fault_rule self }
    {
        match self {
            Fault::NoHead => RuleName::BadRequest,
            Fault::LongHead => RuleName::TooLarge,
            Fault::BadHead(fault) => fault.rule(),
        }
    }

    fn place(self) -> &'static str
        ensures { result.now ≡ fault_place self }
    {
        match self {
            Fault::NoHead | Fault::LongHead => "head",
            Fault::BadHead(fault) => fault.place(),
        }
    }

    /// The refusal of the request.
    pub fn refusal(self, alloc: Global) -> Result<Refusal, NoMemory>
        ensures { IfOk result (λ refusal. refusal ≡ fault_refusal self) }
    {
        let place = String::from_str(alloc, self.place())?;
        Ok(Refusal {
            name: self.rule(),
            place: Text::of(place),
        })
    }
}
