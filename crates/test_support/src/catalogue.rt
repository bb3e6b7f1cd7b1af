//! The catalogue of cables, ducts and networks, deliveries for it, and a code file.

/// The class model.
pub const CATALOGUE: &str = r#"{"model":"imkl-profile",
"enums":[{"name":"Thema","literals":["elektriciteit","water","riool","telecom"]}],
"classes":[
{"name":"KabelOfLeiding","abstract":true,"supers":[],"attributes":[
{"name":"identificatie","type":"String","lower":1,"upper":1,"ordered":false,"unique":true},
{"name":"diepte","type":"Integer","lower":0,"upper":1,"ordered":false,"unique":true}]},
{"name":"Elektriciteitskabel","abstract":false,"supers":["KabelOfLeiding"],"attributes":[
{"name":"spanning","type":"Integer","lower":1,"upper":1,"ordered":false,"unique":true}]},
{"name":"Waterleiding","abstract":false,"supers":["KabelOfLeiding"],"attributes":[
{"name":"diameter","type":"Integer","lower":1,"upper":1,"ordered":false,"unique":true}]},
{"name":"Mantelbuis","abstract":false,"supers":["KabelOfLeiding"],"attributes":[
{"name":"diameter","type":"Integer","lower":1,"upper":1,"ordered":false,"unique":true}]},
{"name":"Utiliteitsnet","abstract":false,"supers":[],"attributes":[
{"name":"thema","type":"Thema","lower":1,"upper":1,"ordered":false,"unique":true}]}],
"associations":[
{"name":"omhulling","from":"Mantelbuis","to":"KabelOfLeiding",
"end":{"name":"omvat","lower":0,"upper":null,"ordered":false},
"opposite":{"name":"ligtIn","lower":0,"upper":1,"ordered":false}},
{"name":"bestaatUit","from":"Utiliteitsnet","to":"KabelOfLeiding",
"end":{"name":"leidingen","lower":1,"upper":null,"ordered":false},
"opposite":{"name":"net","lower":0,"upper":1,"ordered":false}}]}"#;

/// The duct M1 holds E1, 600 deep, and E2, without a depth.
pub const DUCT: &str = r#"{"model":"imkl-profile","objects":[
{"id":"M1","class":"Mantelbuis",
"features":{"identificatie":"m","diameter":110,"omvat":["E1","E2"]}},
{"id":"E1","class":"Elektriciteitskabel",
"features":{"identificatie":"a","spanning":400,"diepte":600}},
{"id":"E2","class":"Elektriciteitskabel","features":{"identificatie":"b","spanning":400}}]}"#;

/// Two nets; three pipes, each in one of them.
pub const NETS: &str = r#"{"model":"imkl-profile","objects":[
{"id":"N1","class":"Utiliteitsnet","features":{"thema":"water","leidingen":["P1","P2"]}},
{"id":"N2","class":"Utiliteitsnet","features":{"thema":"water","leidingen":["P3"]}},
{"id":"P1","class":"Waterleiding","features":{"identificatie":"a","diameter":90}},
{"id":"P2","class":"Waterleiding","features":{"identificatie":"b","diameter":90}},
{"id":"P3","class":"Waterleiding","features":{"identificatie":"c","diameter":90}}]}"#;

/// The code file of the rule d of Mantelbuis, that what it holds is 600 deep: SELF, ATTR omvat, FORALL 4, GET 1, ATTR
/// diepte, INT 600, GE.
pub const DUCT_DEPTH: &[u8] =
    b"OCLB\x00\x01\x00\x05\x00\x01d\x00\x0aMantelbuis\x00\x05omvat\x00\x0eKabelOfLeiding\x00\x06diepte\
\x00\x03\x01\x00\x01\x03\x00\x01\x00\x02\x03\x00\x03\x00\x04\x00\x01\
\x00\x00\x00\x00\x00\x07\x01\x09\x00\x01\x42\x00\x04\x02\x00\x01\x09\x00\x02\x03\x00\x00\x00\x00\x00\x00\x02\x58\x1c";
