//! A script with every verb, over two instances.

/// What the names in the texts stand for, in the order in which they are put in.
pub(super) const NAMES: [(&str, &str); 44] = [
    (
        "{orgs}",
        "[[org]]\nname = 'Alpha'\nuuid = '{oa}'\n[[org]]\nname = 'Beta'\nuuid = '{ob}'\n",
    ),
    ("{a}", "[[instance]]\nname = 'a'\n"),
    ("{b}", "[[instance]]\nname = 'b'\n"),
    (
        "{keys}",
        "[[key]]\ninstance = 'a'\nkey = '{ka}'\norg = 'Alpha'\nrole = 'publisher'\n\
         [[key]]\ninstance = 'a'\nkey = '{kb}'\norg = 'Beta'\nrole = 'publisher'\n\
         [[key]]\ninstance = 'a'\nkey = '{kg}'\norg = 'Alpha'\nrole = 'orgadmin'\n\
         [[key]]\ninstance = 'a'\nkey = '{ks}'\norg = 'Alpha'\nrole = 'siteadmin'\n\
         [[key]]\ninstance = 'a'\nkey = '{kx}'\norg = 'Beta'\nrole = 'sync'\npartner = 'b'\n\
         [[key]]\ninstance = 'b'\nkey = '{kz}'\norg = 'Alpha'\nrole = 'sync'\npartner = 'a'\n\
         [[key]]\ninstance = 'b'\nkey = '{ko}'\norg = 'Beta'\nrole = 'publisher'\n",
    ),
    (
        "{links}",
        "[[link]]\nname = 'ba'\nat = 'b'\nto = 'a'\nkey = '{kx}'\nholder = 'Beta'\n\
         push_org = 'Beta'\n\
         [[link]]\nname = 'ab'\nat = 'a'\nto = 'b'\nkey = '{kz}'\nholder = 'Alpha'\n\
         push_org = 'Alpha'\n",
    ),
    (
        "{ring}",
        "'organisation_uuid':'{oa}','name':'Ring','roaming':true,\
         'SharingGroupOrg':[{'Organisation':{'uuid':'{ob}','name':'Beta'}}]}\n",
    ),
    (
        "{handed ring}",
        "[{'uuid':'{g3}','organisation_uuid':'{oc}','name':'Both','description':'',\
         'releasability':'','active':true,'roaming':true,'modified':'1699999000',\
         'SharingGroupOrg':[{'Organisation':{'uuid':'{ob}','name':'Beta'},'extend':false},\
         {'Organisation':{'uuid':'{oc}','name':'Gamma'},'extend':false}],\
         'SharingGroupServer':[]}]\n",
    ),
    (
        "{hands in}",
        "{time} raw a 504f5354202f73796e632f7061727420485454502f312e310d0a417574686f72697a6174696f6e3a20585858\
         585858585858585858585858585858585858585858585858585858585858585858585858580d0a436f6e7465\
         6e742d4c656e6774683a203234300d0a436f6e6e656374696f6e3a20636c6f73650d0a0d0a\
         4d535031e10000000000400080000000000000050000000000000001000000020000006c0200000000000000\
         00000000000000000000e100000000004000800000000000000500000000006553f101030200000000045761\
         76650000000a323032332d31312d31340400000000006553f10000aaaaaaaa00004000800000000000000100\
         000005416c706861000000000000005c020000000000000000000000000000000000e1000000000040008000\
         00000000000502a1000000000040008000000000000005000000006553f10005020200000004746578740f00\
         0000000000000000017800000000000000000000\n",
    ),
    (
        "{wants}",
        "{time} raw a 504f5354202f73796e632f726f777320485454502f312e310d0a417574686f72697a6174696f6e3a20585858\
         585858585858585858585858585858585858585858585858585858585858585858585858580d0a436f6e7465\
         6e742d4c656e6774683a2036360d0a436f6e6e656374696f6e3a20636c6f73650d0a0d0a\
         4d535033e100000000004000800000000000000100000000000000010000002200e100000000004000800000\
         000000000102a1000000000040008000000000000001\n",
    ),
    ("{A}", "{time} req a {ka} POST "),
    ("{B}", "{time} req a {kb} POST "),
    ("{G}", "{time} req a {kg} POST "),
    ("{S}", "{time} req a {ks} POST "),
    ("{X}", "{time} req a {kx} "),
    ("{B asks}", "{time} req a {kb} GET "),
    ("{D asks}", "{time} req a {kd} GET "),
    ("{O asks}", "{time} req b {ko} GET "),
    ("{time}", "1700000000 00000000000000000000000000000000"),
    ("{oa}", "aaaaaaaa-0000-4000-8000-000000000001"),
    ("{ob}", "bbbbbbbb-0000-4000-8000-000000000002"),
    ("{oc}", "cccccccc-0000-4000-8000-000000000003"),
    ("{e1}", "e1000000-0000-4000-8000-000000000001"),
    ("{e5}", "e1000000-0000-4000-8000-000000000005"),
    ("{u1}", "a1000000-0000-4000-8000-000000000001"),
    ("{u2}", "a1000000-0000-4000-8000-000000000002"),
    ("{u3}", "a1000000-0000-4000-8000-000000000003"),
    ("{u4}", "a1000000-0000-4000-8000-000000000004"),
    ("{o1}", "b1000000-0000-4000-8000-000000000001"),
    ("{r1}", "c1000000-0000-4000-8000-000000000001"),
    ("{p1}", "f1000000-0000-4000-8000-000000000001"),
    ("{p2}", "f1000000-0000-4000-8000-000000000002"),
    ("{s1}", "51000000-0000-4000-8000-000000000001"),
    ("{g1}", "91000000-0000-4000-8000-000000000001"),
    ("{g2}", "91000000-0000-4000-8000-000000000002"),
    ("{g3}", "91000000-0000-4000-8000-000000000003"),
    ("{ka}", "AAAAAAAAAAAAAAAAAAAAAAAAAAAAAAAAAAAAAAAA"),
    ("{kb}", "BBBBBBBBBBBBBBBBBBBBBBBBBBBBBBBBBBBBBBBB"),
    ("{kd}", "DDDDDDDDDDDDDDDDDDDDDDDDDDDDDDDDDDDDDDDD"),
    ("{kg}", "GGGGGGGGGGGGGGGGGGGGGGGGGGGGGGGGGGGGGGGG"),
    ("{ko}", "OOOOOOOOOOOOOOOOOOOOOOOOOOOOOOOOOOOOOOOO"),
    ("{ks}", "SSSSSSSSSSSSSSSSSSSSSSSSSSSSSSSSSSSSSSSS"),
    ("{kx}", "XXXXXXXXXXXXXXXXXXXXXXXXXXXXXXXXXXXXXXXX"),
    ("{kz}", "ZZZZZZZZZZZZZZZZZZZZZZZZZZZZZZZZZZZZZZZZ"),
    ("'", "\""),
];

/// The description, with either instance first.
pub(super) const NETS: [&str; 2] = [
    "{orgs}{a}{b}{keys}{links}---\n",
    "{orgs}{b}{a}{keys}{links}---\n",
];

/// Changes of an event and of what is in it, statements, groups, administration, what partners hand
/// in, and each question; then what passes is pulled and pushed. A pull or a push has the same line
/// after it, which takes what it left, and a line that does nothing.
pub(super) const SCRIPT: &str = "{A}/events/add {'uuid':'{e1}','info':'One','distribution':'3',\
     'Attribute':[{'uuid':'{u1}','type':'text','value':'x'}]}\n\
     {A}/attributes/add/{e1} {'uuid':'{u2}','type':'text','value':'y'}\n\
     {A}/objects/add/{e1} {'uuid':'{o1}','name':'file',\
     'Attribute':[{'uuid':'{u3}','type':'text','value':'z'}]}\n\
     {A}/attributes/add/{e1}/{o1} {'uuid':'{u4}','type':'text','value':'w'}\n\
     {A}/attributes/edit/{e1}/{u1} {'comment':'c'}\n\
     {A}/objects/edit/{e1}/{o1} {'comment':'c'}\n\
     {A}/references/add/{e1}/{o1} {'uuid':'{r1}','referenced_uuid':'{u1}'}\n\
     {A}/tags/attach/{e1} {'name':'t'}\n\
     {A}/tags/attach/{e1}/{u1} {'name':'t'}\n\
     {A}/tags/remove/{e1} {'name':'t'}\n\
     {A}/references/delete/{e1}/{o1}/{r1}\n\
     {A}/attributes/delete/{e1}/{u2}\n\
     {A}/events/edit/{e1} {'info':'Two'}\n\
     {A}/events/publish/{e1}\n\
     {B}/shadow_attributes/add/{e1} {'uuid':'{p1}','type':'text','value':'v'}\n\
     {A}/shadow_attributes/accept/{e1} {'uuid':'{p1}','org':'{ob}','origin':'a'}\n\
     {B}/shadow_attributes/add/{e1}/{u1} {'uuid':'{p2}','type':'text','value':'u'}\n\
     {A}/shadow_attributes/discard/{e1} {'uuid':'{p2}','org':'{ob}','origin':'a',\
     'attribute':'{u1}'}\n\
     {B}/sightings/add/{e1}/{u1} {'uuid':'{s1}'}\n\
     {time} group-add a {oa} {'uuid':'{g1}',{ring}\
     {time} group-edit a {oa} {'uuid':'{g1}',{ring}\
     {G}/sharing_groups/add {'uuid':'{g2}',{ring}\
     {G}/sharing_groups/edit {'uuid':'{g2}',{ring}\
     {S}/admin/organisations/add {'uuid':'{oc}','name':'Gamma'}\n\
     {S}/admin/keys/add {'authkey':'{kd}','org':'{oc}','role':'reader'}\n\
     {S}/admin/links/add {'name':'up','peer':'b','key':'{kz}','holder':'{oa}','push_org':'{oa}'}\n\
     {S}/admin/links/edit {'name':'up','on':false}\n\
     {X}POST /sync/groups {handed ring}\
     {hands in}\
     {D asks}/events/view/{e1}\n\
     {B asks}/events/view/{e1}/{oa}\n\
     {B asks}/events/view/{e5}\n\
     {B asks}/events/index\n\
     {B}/events/restSearch {'value':'x'}\n\
     {B}/attributes/restSearch {'value':'x'}\n\
     {B asks}/sharing_groups/index\n\
     {X}GET /sync/groups\n\
     {X}GET /sync/events\n\
     {X}GET /sync/part/{e1}/0\n\
     {X}GET /sync/manifest\n\
     {wants}\
     {time} pull a up\n\
     {time} pull b ba\n{time} pull b ba\n{time} none\n\
     {O asks}/events/view/{e1}\n\
     {O asks}/sharing_groups/index\n\
     {time} push a ab\n{time} push a ab\n{time} none\n\
     {O asks}/events/view/{e1}/{oa}\n\
     {A}/objects/delete/{e1}/{o1}\n\
     {A}/events/delete/{e1}\n\
     {D asks}/events/view/{e1}\n\
     {S}/admin/keys/revoke {'authkey':'{kb}'}\n\
     {B asks}/events/index\n\
     x\n";

/// How many of its lines are refused: the pull over a link that is off, the view of what is deleted,
/// and the question by a key that is revoked.
pub(super) const REFUSED: usize = 3;
