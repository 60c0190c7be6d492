//! Lines as other programs write them, one to a line: by the rows of the tables, and not from what `ctl_protocol` writes. Lines of a journal that
//! are not events are in `data/` of `try_replay`.

/// Lines of a journal as they are written. Each is read, and written again.
pub const EVENTS: &str = r#"{"F":false,"bind":true,"def":"..","ev":"load","store":true,"w":false}
{"F":true,"bind":false,"def":"\"\\\n\u0001é","ev":"load","store":false,"w":true}
{"ev":"unload","job":"a","store":false,"w":true}
{"ev":"start","job":"a"}
{"ev":"stop","job":"a b"}
{"ev":"kickstart","job":"a","k":true}
{"ev":"enable","job":"a","store":true}
{"ev":"disable","job":"a","store":false}
{"ev":"list"}
{"ev":"print","job":"a"}
{"ev":"shutdown"}
{"ev":"clock","up":18446744073709551615,"wall":0}
{"ev":"saw","exists":true,"nonempty":false,"path":"/w","stamp":5}
{"conn":0,"ev":"came","job":"a"}
{"conn":3,"ev":"left","job":"a"}
{"ev":"spawned","job":"a","pid":4294967295,"run":1}
{"ev":"spawn_refused","job":"a","run":0}
{"ev":"termed","job":"a","ok":true,"run":1}
{"ev":"killed","job":"a","ok":false,"run":1}
{"code":255,"ev":"ended","job":"a","run":1}
{"ev":"ended","job":"a","run":1,"signal":0}
{"ev":"wait_refused","job":"a","run":1}"#;

/// Requests as they are written. Each is read, and written again.
pub const REQUESTS: &str = r#"{"F":false,"def":"..","req":"load","w":true}
{"job":"a","req":"unload","w":false}
{"job":"a","req":"start"}
{"job":"a","req":"stop"}
{"job":"a","k":false,"req":"kickstart"}
{"job":"a","req":"enable"}
{"job":"a","req":"disable"}
{"req":"list"}
{"job":"a","req":"print"}
{"req":"shutdown"}"#;
