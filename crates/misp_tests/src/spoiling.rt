//! A row that turns bad while its instance is open: what looks at it is refused, and nothing else.

use crate::outside::{carry, idle_dial, idle_door, ran_over};
use misp_app::{KEEPERS, Status};
use misp_ids::{EventId, Items, Uid};
use misp_outside::{AdminRow, Keeper, KeeperFault, RawBatch, RawRow, SureKeeper};
use std::alloc::{AllocError, Global};
use std::process::Abort;
use std::test::Fail;

/// What the names in the text stand for, in the order in which they are put in.
const NAMES: [(&str, &str); 18] = [
    (
        "{net}",
        "[[org]]\nname = 'Alpha'\nuuid = 'aa{rest}'\n[[org]]\nname = 'Beta'\nuuid = 'bb{rest}'\n\
         [[instance]]\nname = 'a'\n\
         [[key]]\ninstance = 'a'\nkey = '{ka}'\norg = 'Alpha'\nrole = 'publisher'\n\
         [[key]]\ninstance = 'a'\nkey = '{kb}'\norg = 'Beta'\nrole = 'publisher'\n",
    ),
    (
        "{add}",
        "{step} POST /events/add {'uuid':'e1{rest}','info':'One','Attribute':[\
         {'uuid':'a1{rest}','type':'text','value':'x'},\
         {'uuid':'a2{rest}','type':'text','value':'y'}]}\n",
    ),
    (
        "{more}",
        "{step} POST /attributes/add/e1{rest} {'uuid':'a3{rest}','type':'text','value':'z'}\n",
    ),
    ("{edit}", "{step} POST /attributes/edit/e1{rest}/"),
    ("{view}", "{step} GET /events/view/e1{rest}\n"),
    (
        "{other}",
        "{later} POST /events/add {'uuid':'e1{rest}','info':'Two'}\n\
         {later} GET /events/view/e1{rest}\n",
    ),
    (
        "{later}",
        "1700000001 00000000000000000000000000000000 req a {kb}",
    ),
    (
        "{step}",
        "1700000000 00000000000000000000000000000000 req a {ka}",
    ),
    ("{ka}", "AAAAAAAAAAAAAAAAAAAAAAAAAAAAAAAAAAAAAAAA"),
    ("{kb}", "BBBBBBBBBBBBBBBBBBBBBBBBBBBBBBBBBBBBBBBB"),
    (
        "{saved3}",
        "{'elements':3,'event':'e1{rest}','timestamp':'17000000",
    ),
    (
        "{saved1}",
        "{'elements':1,'event':'e1{rest}','timestamp':'17000000",
    ),
    (
        "{seen}",
        "{'Event':{'Attribute':[],'Object':[],'Org':{beta},'Orgc':{beta},'ShadowAttribute':[],\
         'Tag':[],'analysis':'0','attribute_count':'0','date':'2023-11-14','distribution':'0',\
         'extends_uuid':'','info':'Two','publish_timestamp':'0','published':false,\
         'threat_level_id':'4','timestamp':'1700000001','uuid':'e1{rest}'}}",
    ),
    ("{beta}", "{'name':'Beta','uuid':'bb{rest}'}"),
    (
        "{bad}",
        "{'name':'BadRow','place':'aa{hex}00e1{hex}02a1{hex}','rule':28}",
    ),
    ("{hex}", "000000000040008000000000000001"),
    ("{rest}", "000000-0000-4000-8000-000000000001"),
    ("'", "\""),
];

/// An event with two attributes, an edit of the second and a third one, an edit of the first, and a
/// view; and then the copy of another organisation, and its view.
const TEXT: &str = "{net}---\n{add}\
    {edit}a2{rest} {'comment':'two'}\n{more}{edit}a1{rest} {'comment':'one'}\n{view}{other}";

/// What is written: the event, the edit of the second attribute and the third one are taken, what
/// looks at the first is refused by rule 28, which names its row, and the other copy is shown.
const LINES: &str = "1 200 {saved3}00'}\n2 200 {saved1}01'}\n3 200 {saved1}00'}\n\
    4 500 {bad}\n5 500 {bad}\n6 200 {saved1}01'}\n7 200 {seen}\n";

/// The name of the row of the first attribute: its owner, its event and its place.
const NAME: &[u8] = b"\xaa\0\0\0\0\0\x40\0\x80\0\0\0\0\0\0\x01\
    \0\xe1\0\0\0\0\0\x40\0\x80\0\0\0\0\0\0\x01\
    \x02\xa1\0\0\0\0\0\x40\0\x80\0\0\0\0\0\0\x01";

/// A keeper in memory, in which the row of that name has no bytes once a batch was put.
#[derive(Drop)]
struct Spoiling {
    keeper: SureKeeper,
    alloc: Global,
}

// The row of that name, without bytes.
fn spoilt_row(alloc: Global) -> Result<RawRow, AllocError> {
    Ok(RawRow {
        event: EventId(Uid(0xe100_0000_0000_4000_8000_0000_0000_0001)),
        name: Items::of(NAME.to_vec(alloc)?),
        bytes: Items::of(Vec::new(alloc)),
    })
}

// A batch of one row.
fn batch_of(alloc: Global, row: RawRow) -> Result<RawBatch, AllocError> {
    let mut rows = Vec::with_capacity(alloc, 1)?;
    rows.push(row)?;
    Ok(RawBatch {
        rows: Items::of(rows),
        admin: Items::of(Vec::new(alloc)),
    })
}

impl Keeper for Spoiling {
    ghost use Rattle.std.specs.Prelude.{None};
    ghost use Rattle.misp_outside.specs.KeeperState.{state};

    ghost state = { λ _. state None 0 };

    fn load_event(&mut self, alloc: Global, event: &EventId) -> Result<Vec<RawRow>, KeeperFault> {
        self.keeper.load_event(alloc, event)
    }

    fn load_named(
        &mut self,
        alloc: Global,
        event: &EventId,
        front: &[u8],
    ) -> Result<Vec<RawRow>, KeeperFault> {
        self.keeper.load_named(alloc, event, front)
    }

    fn load_next(
        &mut self,
        alloc: Global,
        event: &EventId,
        from: &[u8],
    ) -> Result<Option<RawRow>, KeeperFault> {
        self.keeper.load_next(alloc, event, from)
    }

    fn load_all(&mut self, alloc: Global) -> Result<Vec<RawRow>, KeeperFault> {
        self.keeper.load_all(alloc)
    }

    fn load_admin(&mut self, alloc: Global) -> Result<Vec<AdminRow>, KeeperFault> {
        self.keeper.load_admin(alloc)
    }

    fn apply(&mut self, batch: RawBatch) -> Result<(), KeeperFault> {
        self.keeper.apply(batch)?;
        let spoilt = batch_of(self.alloc, spoilt_row(self.alloc)?)?;
        self.keeper.apply(spoilt)
    }
}

// As many such keepers as a run asks for.
fn spoiling_keepers(rt: &impl Abort, alloc: Global) -> Vec<Spoiling> {
    let mut keepers = Vec::new(alloc);
    for _ in 0..KEEPERS {
        let keeper = Spoiling {
            keeper: SureKeeper::new(alloc),
            alloc,
        };
        keepers.push(keeper).expect(rt, "memory");
    }
    keepers
}

#[test]
fn a_bad_row_refuses_what_looks_at_it_and_nothing_else(rt: HostRuntime) -> Result<(), Fail> {
    let alloc = rt.alloc();
    let text = misp_samples::filled(alloc, &NAMES, TEXT)?;
    let mut keepers = spoiling_keepers(&rt, alloc);
    let mut carry = carry(alloc);
    let mut door = idle_door(&rt, alloc);
    let mut dial = idle_dial(alloc);
    let (status, lines) = ran_over(
        &rt,
        alloc,
        "net",
        text.as_str(),
        &mut keepers,
        &mut carry,
        &mut door,
        &mut dial,
    );
    drop(text);
    drop(keepers);
    drop(carry);
    drop(door);
    drop(dial);
    assert_eq!(rt; status, Status::Done);
    let want = misp_samples::filled(alloc, &NAMES, LINES)?;
    assert_eq!(rt; lines.as_str(), want.as_str());
    drop(lines);
    drop(want);
    Ok(())
}
