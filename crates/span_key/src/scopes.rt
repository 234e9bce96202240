// The two scopes, whose latches never conflict with one another.

/// Where a span's keys belong: local keys begin with byte 0x01.
#[derive(Clone, Copy, Debug, PartialEq, Eq)]
pub enum Scope {
    Global,
    Local,
}
