//! Sources, what goes wrong outside, and what they come to.

use misp_app::Status;

/// What the names in the texts of the table stand for, in the order in which they are put in.
pub(super) const NAMES: [(&str, &str); 52] = [
    (
        "{net}",
        "[[org]]\nname = 'Alpha'\nuuid = '{oa}'\n[[org]]\nname = 'Beta'\nuuid = '{ob}'\n\
         [[instance]]\nname = 'a'\n[[instance]]\nname = 'b'\n\
         [[key]]\ninstance = 'a'\nkey = '{ka}'\norg = 'Alpha'\nrole = 'publisher'\n\
         [[key]]\ninstance = 'a'\nkey = '{kb}'\norg = 'Beta'\nrole = 'publisher'\n\
         [[key]]\ninstance = 'a'\nkey = '{kr}'\norg = 'Alpha'\nrole = 'reader'\n\
         [[key]]\ninstance = 'a'\nkey = '{ks}'\norg = 'Alpha'\nrole = 'siteadmin'\n\
         [[key]]\ninstance = 'b'\nkey = '{ko}'\norg = 'Alpha'\nrole = 'user'\n",
    ),
    ("{A adds}", "{step} req a {ka} POST /events/add"),
    ("{B adds}", "{step} req a {kb} POST /events/add"),
    ("{B views}", "{step} req a {kb} GET /events/view/"),
    ("{reader adds}", "{step} req a {kr} POST /events/add"),
    ("{A adds group}", "{step} group-add a {oa}"),
    ("{B adds group}", "{step} group-add a {ob}"),
    ("{A edits group}", "{step} group-edit a {oa}"),
    ("{A lists}", "{step} req a {ka} GET /sharing_groups/index"),
    ("{B lists}", "{step} req a {kb} GET /sharing_groups/index"),
    (
        "{S adds key}",
        "{step} req a {ks} POST /admin/keys/add {'authkey':'{kd}','org':'{ob}','role':'reader'}",
    ),
    ("{D lists}", "{step} req a {kd} GET /sharing_groups/index"),
    ("{step}", "1700000000 00000000000000000000000000000000"),
    (
        "{shared}",
        "{'Event':{'uuid':'{e1}','info':'Wave','date':'2023-11-14','distribution':'4',\
         'SharingGroup':{'organisation_uuid':'{oa}','uuid':'{g1}'},'Attribute':[]}}",
    ),
    (
        "{shown shared}",
        "200 {'Event':{'Attribute':[],'Object':[],'Org':{'name':'Alpha','uuid':'{oa}'},\
         'Orgc':{'name':'Alpha','uuid':'{oa}'},'ShadowAttribute':[],\
         'SharingGroup':{'name':'Ring','organisation_uuid':'{oa}','uuid':'{g1}'},'Tag':[],\
         'analysis':'0','attribute_count':'0','date':'2023-11-14','distribution':'4',\
         'extends_uuid':'','info':'Wave','publish_timestamp':'0','published':false,\
         'threat_level_id':'4','timestamp':'1700000000','uuid':'{e1}'}}",
    ),
    (
        "{not usable}",
        "403 {'name':'GroupNotUsable','place':'{g1}','rule':15}",
    ),
    (
        "{ring}",
        "{'SharingGroup':{'uuid':'{g1}','organisation_uuid':'{oa}','name':'Ring',\
         'SharingGroupOrg':[{'Organisation':{'uuid':'{ob}','name':'Beta'}},\
         {'Organisation':{'uuid':'{oa}','name':'Alpha'}}]}}",
    ),
    (
        "{nameless ring}",
        "{'uuid':'{g1}','organisation_uuid':'{oa}'}",
    ),
    (
        "{wave}",
        "{'Event':{'uuid':'{e1}','info':'Wave','date':'2023-11-14','distribution':'1',\
         'Attribute':[{part}]}}",
    ),
    (
        "{own}",
        "{'Event':{'uuid':'{e1}','info':'Wave','date':'2023-11-14','distribution':'0',\
         'Attribute':[{part}]}}",
    ),
    (
        "{seen}",
        "{'Event':{'uuid':'{e1}','info':'Wave','date':'2023-11-14','distribution':'1',\
         'Object':[{'uuid':'{u2}','name':'domain-ip','Attribute':[{'uuid':'{u1}','type':'domain',\
         'value':'x','first_seen':'2023-11-15T00:13:20.5+02:00','object_relation':'domain'}]}]}}",
    ),
    (
        "{dated}",
        "{'Event':{'uuid':'{e2}','info':'Wave','date':'2023-11-14','Attribute':[\
         {'uuid':'{u1}','type':'text','value':'x','first_seen':'2023-11-14'}]}}",
    ),
    (
        "{shown seen}",
        "200 {'Event':{'Attribute':[],'Object':[{'Attribute':[{'ShadowAttribute':[],\
         'Sighting':[],'Tag':[],'category':'Other','comment':'','deleted':false,\
         'distribution':'5','first_seen':'2023-11-14T22:13:20.500000+00:00',\
         'object_relation':'domain','timestamp':'1700000000','to_ids':false,'type':'domain',\
         'uuid':'{u1}','value':'x'}],'ObjectReference':[],'comment':'','deleted':false,\
         'description':'','distribution':'5','meta-category':'','name':'domain-ip',\
         'template_uuid':'','template_version':'0','timestamp':'1700000000','uuid':'{u2}'}],\
         'Org':{'name':'Alpha','uuid':'{oa}'},'Orgc':{'name':'Alpha','uuid':'{oa}'},\
         'ShadowAttribute':[],'Tag':[],'analysis':'0','attribute_count':'1',\
         'date':'2023-11-14','distribution':'1','extends_uuid':'','info':'Wave',\
         'publish_timestamp':'0','published':false,'threat_level_id':'4',\
         'timestamp':'1700000000','uuid':'{e1}'}}",
    ),
    (
        "{nameless}",
        "{'Event':{'uuid':'{e1}','info':'','date':'2023-11-14','distribution':'1',\
         'Attribute':[{part}]}}",
    ),
    (
        "{twice}",
        "{'info':'Wave','date':'2023-11-14','Attribute':[{part},{part}]}",
    ),
    ("{part}", "{'uuid':'{u1}','type':'text','value':'x'}"),
    (
        "{saved}",
        "200 {'elements':2,'event':'{e1}','timestamp':'1700000000'}",
    ),
    (
        "{shown}",
        "200 {'Event':{'Attribute':[{'ShadowAttribute':[],'Sighting':[],'Tag':[],\
         'category':'Other','comment':'','deleted':false,'distribution':'5',\
         'timestamp':'1700000000','to_ids':false,'type':'text','uuid':'{u1}','value':'x'}],\
         'Object':[],'Org':{'name':'Alpha','uuid':'{oa}'},\
         'Orgc':{'name':'Alpha','uuid':'{oa}'},'ShadowAttribute':[],'Tag':[],'analysis':'0',\
         'attribute_count':'1','date':'2023-11-14','distribution':'1','extends_uuid':'',\
         'info':'Wave','publish_timestamp':'0','published':false,'threat_level_id':'4',\
         'timestamp':'1700000000','uuid':'{e1}'}}",
    ),
    ("{taken}", "200 {'taken':1}"),
    (
        "{rings}",
        "200 [{'SharingGroupOrg':[{'Organisation':{'name':'Alpha','uuid':'{oa}'},\
         'extend':false},{'Organisation':{'name':'Beta','uuid':'{ob}'},'extend':false}],'SharingGroupServer':[],'active':true,'description':'',\
         'modified':'1700000001','name':'Ring','organisation_uuid':'{oa}',\
         'releasability':'','roaming':false,'uuid':'{g1}'}]",
    ),
    ("{hidden}", "404 {'name':'NotGranted','place':'','rule':9}"),
    ("{no key}", "403 {'name':'NoKey','place':'','rule':1}"),
    ("{no route}", "404 {'name':'NoRoute','place':'','rule':4}"),
    ("{no json}", "400 {'name':'BadJson','place':'','rule':6}"),
    (
        "{no keeper}",
        "503 {'name':'KeeperFault','place':'','rule':26}",
    ),
    ("{gone}", "409 {'name':'EventGone','place':'','rule':13}"),
    (
        "{not creator}",
        "403 {'name':'NotCreator','place':'','rule':31}",
    ),
    ("{oa}", "aaaaaaaa-0000-4000-8000-000000000001"),
    ("{ob}", "bbbbbbbb-0000-4000-8000-000000000002"),
    ("{e1}", "e1000000-0000-4000-8000-000000000001"),
    ("{e2}", "e1000000-0000-4000-8000-000000000002"),
    ("{e9}", "e1000000-0000-4000-8000-000000000009"),
    ("{u1}", "a1000000-0000-4000-8000-000000000001"),
    ("{u2}", "a1000000-0000-4000-8000-000000000002"),
    ("{g1}", "91000000-0000-4000-8000-000000000001"),
    ("{ka}", "AAAAAAAAAAAAAAAAAAAAAAAAAAAAAAAAAAAAAAAA"),
    ("{kb}", "BBBBBBBBBBBBBBBBBBBBBBBBBBBBBBBBBBBBBBBB"),
    ("{kd}", "DDDDDDDDDDDDDDDDDDDDDDDDDDDDDDDDDDDDDDDD"),
    ("{kr}", "RRRRRRRRRRRRRRRRRRRRRRRRRRRRRRRRRRRRRRRR"),
    ("{ks}", "SSSSSSSSSSSSSSSSSSSSSSSSSSSSSSSSSSSSSSSS"),
    ("{ko}", "OOOOOOOOOOOOOOOOOOOOOOOOOOOOOOOOOOOOOOOO"),
    ("'", "\""),
];

/// A source under words, filled with `x` up to a length, over keepers of which the first holds one
/// row, the tombstone of Alpha for {e9}. The read, the write and the call of that keeper with these
/// numbers fail, and none at 0; its call 1 put the row, and the calls 2 and 3 open the instance.
/// Afterwards it has applied so many batches, and the others none.
#[derive(Drop)]
pub(super) struct Case<'a> {
    pub(super) words: &'a str,
    pub(super) source: &'a str,
    pub(super) len: usize,
    pub(super) fails: [u64; 3],
    pub(super) status: Status,
    pub(super) written: &'a str,
    pub(super) batches: [u64; 4],
}

const NONE: [u64; 3] = [0, 0, 0];

pub(super) const CASES: [Case<'static>; 31] = [
    Case {
        words: "net",
        source: "{net}---\n{A adds} {wave}\n{B views}{e1}\n",
        len: 0,
        fails: NONE,
        status: Status::Done,
        written: "1 {saved}\n2 {shown}\n",
        batches: [2, 0, 0, 0],
    },
    // What is hidden is as what is not there, and another holder's event may be added.
    Case {
        words: "net",
        source: "{net}---\n{A adds} {own}\n{B views}{e1}\n{B views}{e2}\n{B adds} {own}\n",
        len: 0,
        fails: NONE,
        status: Status::Done,
        written: "1 {saved}\n2 {hidden}\n3 {hidden}\n4 {saved}\n",
        batches: [3, 0, 0, 0],
    },
    Case {
        words: "net",
        source: "{net}---\n{A adds} {wave}\n{A adds} {wave}\n{B adds} {wave}\n",
        len: 0,
        fails: NONE,
        status: Status::Done,
        written: "1 {saved}\n2 409 {'name':'EventExists','place':'','rule':12}\n3 {saved}\n",
        batches: [3, 0, 0, 0],
    },
    // Moments are shown in UTC, and the part of an attribute in its object; a date is no moment.
    Case {
        words: "net",
        source: "{net}---\n{A adds} {seen}\n{B views}{e1}\n{A adds} {dated}\n",
        len: 0,
        fails: NONE,
        status: Status::Done,
        written: "1 200 {'elements':3,'event':'{e1}','timestamp':'1700000000'}\n2 {shown seen}\n\
                  3 400 {'name':'BadField','place':'Event.Attribute[0].first_seen moment',\
                  'rule':7}\n",
        batches: [2, 0, 0, 0],
    },
    // Each rule before those that follow.
    Case {
        words: "net",
        source: "{net}---\n{step} req a - GET /nothing {\n{step} req a - GET /events/add\n\
                 {step} req a - POST /events/add {\n{reader adds} {\n{reader adds} {nameless}\n\
                 {reader adds} {twice}\n{A adds} {twice}\n{B views}{e1}",
        len: 0,
        fails: NONE,
        status: Status::Done,
        written: "1 {no route}\n2 405 {'name':'NoMethod','place':'','rule':5}\n3 {no key}\n\
                  4 {no json}\n5 400 {'name':'BadField','place':'Event.info range','rule':7}\n\
                  6 403 {'name':'NoPermission','place':'Write','rule':8}\n\
                  7 409 {'name':'ElementExists','place':'{u1}','rule':14}\n8 {hidden}\n",
        batches: [1, 0, 0, 0],
    },
    // A reader views and does not add, and who sets up does not view.
    Case {
        words: "net",
        source: "{net}---\n{A adds} {own}\n{step} req a {kr} GET /events/view/{e1}/{ob}\n\
                 {step} req a {ks} GET /events/view/{e1}\n",
        len: 0,
        fails: NONE,
        status: Status::Done,
        written: "1 {saved}\n2 {hidden}\n\
                  3 403 {'name':'NoPermission','place':'Read','rule':8}\n",
        batches: [2, 0, 0, 0],
    },
    // The copy of an owner, and another instance.
    Case {
        words: "net",
        source: "{net}---\n{A adds} {wave}\n{B views}{e1}/{oa}\n{B views}{e1}/{ob}\n\
                 {B views}{e1}/Beta\n{step} req b {ka} GET /events/view/{e1}\n\
                 {step} req b {ko} GET /events/view/{e1}\n",
        len: 0,
        fails: NONE,
        status: Status::Done,
        written: "1 {saved}\n2 {shown}\n3 {hidden}\n4 {no route}\n5 {no key}\n6 {hidden}\n",
        batches: [2, 0, 0, 0],
    },
    Case {
        words: "net",
        source: "{net}---\nx\n1700000000 0 none\n1700000000\n{step} none\n",
        len: 0,
        fails: NONE,
        status: Status::Done,
        written: "1 bad 0\n2 bad 11\n3 bad 10\n4 -\n",
        batches: [1, 0, 0, 0],
    },
    // No line is run.
    Case {
        words: "net",
        source: "{net}---\n",
        len: 0,
        fails: NONE,
        status: Status::Done,
        written: "",
        batches: [1, 0, 0, 0],
    },
    Case {
        words: "net",
        source: "{net}",
        len: 0,
        fails: NONE,
        status: Status::Done,
        written: "",
        batches: [1, 0, 0, 0],
    },
    Case {
        words: "net",
        source: "[[org]]\nname = 'Alpha'\n---\n{step} none\n",
        len: 0,
        fails: NONE,
        status: Status::BadDescription,
        written: "bad description: org[0].uuid present\n",
        batches: [1, 0, 0, 0],
    },
    // A check runs nothing.
    Case {
        words: "check",
        source: "{net}---\n{A adds} {wave}\n",
        len: 0,
        fails: NONE,
        status: Status::Done,
        written: "ok\n",
        batches: [1, 0, 0, 0],
    },
    Case {
        words: "check",
        source: "[[instance]]\nname = 'a'\n[[key]]\ninstance = 'a'\nkey = '{ka}'\norg = 'Nobody'\n",
        len: 0,
        fails: NONE,
        status: Status::BadDescription,
        written: "bad description: key[0].org known\n",
        batches: [1, 0, 0, 0],
    },
    Case {
        words: "check",
        source: "{net}",
        len: 0,
        fails: [0, 1, 0],
        status: Status::WriteFault,
        written: "",
        batches: [1, 0, 0, 0],
    },
    // Other words, also over a source and a sink that fail.
    Case {
        words: "net x",
        source: "{net}",
        len: 0,
        fails: [1, 1, 0],
        status: Status::Usage,
        written: "",
        batches: [1, 0, 0, 0],
    },
    Case {
        words: "feed",
        source: "{net}",
        len: 0,
        fails: [1, 1, 0],
        status: Status::Usage,
        written: "",
        batches: [1, 0, 0, 0],
    },
    Case {
        words: "net",
        source: "{net}---\n{A adds} {wave}\n",
        len: 0,
        fails: [2, 0, 0],
        status: Status::ReadFault,
        written: "",
        batches: [1, 0, 0, 0],
    },
    // The script was run before the write.
    Case {
        words: "net",
        source: "{net}---\n{A adds} {wave}\n",
        len: 0,
        fails: [0, 1, 0],
        status: Status::WriteFault,
        written: "",
        batches: [2, 0, 0, 0],
    },
    Case {
        words: "net",
        source: "zzz = 1\n",
        len: 0,
        fails: [0, 1, 0],
        status: Status::WriteFault,
        written: "",
        batches: [1, 0, 0, 0],
    },
    // A load that fails, and a batch.
    Case {
        words: "net",
        source: "{net}---\n{B views}{e1}\n{B views}{e1}\n",
        len: 0,
        fails: [0, 0, 4],
        status: Status::Done,
        written: "1 {no keeper}\n2 {hidden}\n",
        batches: [1, 0, 0, 0],
    },
    Case {
        words: "net",
        source: "{net}---\n{A adds} {wave}\n{B views}{e1}\n{A adds} {wave}\n",
        len: 0,
        fails: [0, 0, 5],
        status: Status::Done,
        written: "1 {no keeper}\n2 {hidden}\n3 {saved}\n",
        batches: [2, 0, 0, 0],
    },
    // A key whose batch failed is not there, and is made by the next request.
    Case {
        words: "net",
        source: "{net}---\n{S adds key}\n{D lists}\n{S adds key}\n{D lists}\n",
        len: 0,
        fails: [0, 0, 4],
        status: Status::Done,
        written: "1 {no keeper}\n2 {no key}\n3 {taken}\n4 200 []\n",
        batches: [2, 0, 0, 0],
    },
    // A load of the administration that fails, and one of all rows.
    Case {
        words: "net",
        source: "{net}---\n{B views}{e1}\n",
        len: 0,
        fails: [0, 0, 2],
        status: Status::KeeperFault,
        written: "",
        batches: [1, 0, 0, 0],
    },
    Case {
        words: "net",
        source: "{net}---\n{B views}{e1}\n",
        len: 0,
        fails: [0, 0, 3],
        status: Status::KeeperFault,
        written: "",
        batches: [1, 0, 0, 0],
    },
    // A group is added once, and edited where it is known, by its creator alone.
    Case {
        words: "net",
        source: "{net}---\n{B lists}\n{A adds group} {ring}\n{A adds group} {ring}\n\
                 {A edits group} {ring}\n{B adds group} {ring}\n{B lists}\n\
                 {step} req b {ko} GET /sharing_groups/index\n",
        len: 0,
        fails: NONE,
        status: Status::Done,
        written: "1 200 []\n2 {taken}\n3 409 {'name':'GroupExists','place':'','rule':29}\n\
                  4 {taken}\n5 {not creator}\n6 {rings}\n7 200 []\n",
        batches: [3, 0, 0, 0],
    },
    Case {
        words: "net",
        source: "{net}---\n{A edits group} {ring}\n{A adds group} {\n\
                 {A adds group} {nameless ring}\n{A adds group}\n\
                 {step} group-add a {e1} {ring}\n{A lists}\n",
        len: 0,
        fails: NONE,
        status: Status::Done,
        written: "1 404 {'name':'NoGroup','place':'','rule':30}\n2 {no json}\n\
                  3 400 {'name':'BadField','place':'SharingGroup.name present','rule':7}\n\
                  4 bad 92\n5 bad 56\n6 200 []\n",
        batches: [1, 0, 0, 0],
    },
    // A label of a group is used where the group is known, and opens to its organisations.
    Case {
        words: "net",
        source: "{net}---\n{A adds} {shared}\n{A adds group} {ring}\n{A adds} {shared}\n\
                 {B views}{e1}\n{step} req b {ko} GET /events/view/{e1}\n",
        len: 0,
        fails: NONE,
        status: Status::Done,
        written: "1 {not usable}\n2 {taken}\n\
                  3 200 {'elements':1,'event':'{e1}','timestamp':'1700000000'}\n\
                  4 {shown shared}\n5 {hidden}\n",
        batches: [3, 0, 0, 0],
    },
    // What a keeper holds counts: A has deleted the event, and B, who cannot see that, may add it.
    Case {
        words: "net",
        source: "{net}---\n{B views}{e9}\n{A adds} {'uuid':'{e9}','info':'x','date':'2023-11-14'}\n\
                 {B views}{e2}\n{B adds} {'uuid':'{e9}','info':'x','date':'2023-11-14'}\n",
        len: 0,
        fails: NONE,
        status: Status::Done,
        written: "1 {hidden}\n2 {gone}\n3 {hidden}\n\
                  4 200 {'elements':1,'event':'{e9}','timestamp':'1700000000'}\n",
        batches: [2, 0, 0, 0],
    },
    // A generated network: the source is not called, so its first call does not fail.
    Case {
        words: "gen 10",
        source: "",
        len: 0,
        fails: [1, 0, 0],
        status: Status::Done,
        written: "events 10\nb 20 10\nc 14 7\nd 6 3\na 0 0\nagain 0\nhits 1 1 1 0\n",
        batches: [21, 10, 7, 3],
    },
    Case {
        words: "gen 1",
        source: "",
        len: 0,
        fails: [0, 1, 0],
        status: Status::WriteFault,
        written: "",
        batches: [3, 1, 1, 0],
    },
    // One byte too many.
    Case {
        words: "net",
        source: "{net}---\n",
        len: 67_108_865,
        fails: NONE,
        status: Status::TooMuch,
        written: "",
        batches: [1, 0, 0, 0],
    },
];
