//! The description of the generated network.

ghost use Rattle.std.specs.Prelude.{◌≡◌};
ghost use Rattle.misp_generated.specs.Network.{description_text};

/// Four instances in a ring.
#[tactic(auto, unfolding(crate::specs::Network::description_text))]
pub(crate) fn description() -> &'static str
    ensures { result.now ≡ description_text }
{
    r#"[[org]]
name = "Alpha"
uuid = "aaaaaaaa-0000-4000-8000-000000000001"
[[org]]
name = "Beta"
uuid = "bbbbbbbb-0000-4000-8000-000000000002"
[[org]]
name = "Gamma"
uuid = "cccccccc-0000-4000-8000-000000000003"
[[org]]
name = "Delta"
uuid = "dddddddd-0000-4000-8000-000000000004"
[[instance]]
name = "a"
[[instance]]
name = "b"
[[instance]]
name = "c"
[[instance]]
name = "d"
[[key]]
instance = "a"
key = "AAAAAAAAAAAAAAAAAAAAAAAAAAAAAAAAAAAAAAAA"
org = "Alpha"
role = "publisher"
[[key]]
instance = "b"
key = "BBBBBBBBBBBBBBBBBBBBBBBBBBBBBBBBBBBBBBBB"
org = "Beta"
role = "publisher"
[[key]]
instance = "c"
key = "CCCCCCCCCCCCCCCCCCCCCCCCCCCCCCCCCCCCCCCC"
org = "Gamma"
role = "publisher"
[[key]]
instance = "d"
key = "DDDDDDDDDDDDDDDDDDDDDDDDDDDDDDDDDDDDDDDD"
org = "Delta"
role = "publisher"
[[key]]
instance = "a"
key = "PPPPPPPPPPPPPPPPPPPPPPPPPPPPPPPPPPPPPPPP"
org = "Beta"
role = "sync"
partner = "b"
[[key]]
instance = "b"
key = "QQQQQQQQQQQQQQQQQQQQQQQQQQQQQQQQQQQQQQQQ"
org = "Gamma"
role = "sync"
partner = "c"
[[key]]
instance = "c"
key = "RRRRRRRRRRRRRRRRRRRRRRRRRRRRRRRRRRRRRRRR"
org = "Delta"
role = "sync"
partner = "d"
[[key]]
instance = "d"
key = "SSSSSSSSSSSSSSSSSSSSSSSSSSSSSSSSSSSSSSSS"
org = "Alpha"
role = "sync"
partner = "a"
[[link]]
name = "ba"
at = "b"
to = "a"
key = "PPPPPPPPPPPPPPPPPPPPPPPPPPPPPPPPPPPPPPPP"
holder = "Beta"
push_org = "Beta"
[[link]]
name = "cb"
at = "c"
to = "b"
key = "QQQQQQQQQQQQQQQQQQQQQQQQQQQQQQQQQQQQQQQQ"
holder = "Gamma"
push_org = "Gamma"
[[link]]
name = "dc"
at = "d"
to = "c"
key = "RRRRRRRRRRRRRRRRRRRRRRRRRRRRRRRRRRRRRRRR"
holder = "Delta"
push_org = "Delta"
[[link]]
name = "ad"
at = "a"
to = "d"
key = "SSSSSSSSSSSSSSSSSSSSSSSSSSSSSSSSSSSSSSSS"
holder = "Alpha"
push_org = "Alpha"
"#
}
