//! What is said of a fault.

/// What is wrong, in two pieces, and what to write, in three.
#[derive(Clone, Copy)]
pub struct Said<'a> {
    pub before: &'a str,
    pub what: &'a str,
    pub write: [&'a [u8]; 3],
}

/// What is wrong, and what to write.
pub fn words<'a>(what: &'a str, write: &'a str) -> Said<'a> {
    Said {
        before: "",
        what,
        write: [write.as_bytes(), b"", b""],
    }
}

/// That a key is missing, with its rule.
pub fn missing<'a>(what: &'a str, write: &'a str) -> Said<'a> {
    Said {
        before: "this key is missing: ",
        what,
        write: [write.as_bytes(), b"", b""],
    }
}

/// What is wrong, and what stands there to be written within quotes with this behind it.
pub fn quoted<'a>(what: &'a str, value: &'a [u8], behind: &'a str) -> Said<'a> {
    Said {
        before: "",
        what,
        write: [b"\"", value, behind.as_bytes()],
    }
}
