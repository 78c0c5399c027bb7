//! What the value of an attribute has to be, by the attribute's type.

ghost use Rattle.std.specs.Prelude.{◌≡◌};
ghost use Rattle.misp_types.specs.Kinds.{form_of, rule_of};

/// What a text has to be.
#[derive(Clone, Copy, PartialEq, Eq)]
pub(crate) enum Form {
    /// So many hexadecimal digits.
    Digest(usize),
    Address,
    Domain,
    Port,
    System,
    Any,
}

/// What a value has to be.
#[derive(Clone, Copy, PartialEq, Eq)]
pub(crate) enum Rule {
    One(Form),
    /// Two texts, parted by the last `|`.
    Two(Form, Form),
    File,
}

#[tactic(auto, unfolding(crate::specs::Kinds::form_of))]
fn form_of(kind: &str) -> Form
    ensures { result ≡ form_of kind.now }
{
    if kind == "md5" {
        Form::Digest(32)
    } else if kind == "sha1" {
        Form::Digest(40)
    } else if kind == "sha256" {
        Form::Digest(64)
    } else if kind == "sha512" {
        Form::Digest(128)
    } else if kind == "ip-src" || kind == "ip-dst" {
        Form::Address
    } else if kind == "domain" || kind == "hostname" {
        Form::Domain
    } else if kind == "port" {
        Form::Port
    } else if kind == "AS" {
        Form::System
    } else {
        Form::Any
    }
}

#[tactic(auto, unfolding(crate::specs::Kinds::rule_of))]
pub(crate) fn rule_of(kind: &str) -> Rule
    ensures { result ≡ rule_of kind.now }
{
    if kind == "filename|md5" {
        Rule::Two(Form::Any, Form::Digest(32))
    } else if kind == "filename|sha1" {
        Rule::Two(Form::Any, Form::Digest(40))
    } else if kind == "filename|sha256" {
        Rule::Two(Form::Any, Form::Digest(64))
    } else if kind == "domain|ip" {
        Rule::Two(Form::Domain, Form::Address)
    } else if kind == "ip-src|port" || kind == "ip-dst|port" {
        Rule::Two(Form::Address, Form::Port)
    } else if kind == "attachment" || kind == "malware-sample" {
        Rule::File
    } else {
        Rule::One(form_of(kind))
    }
}
