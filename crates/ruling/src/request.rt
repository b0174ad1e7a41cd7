// What a key is to be used for, when and by whom (document 01, "The use ruling"). Any value of any of them gets an
// answer.

// The user's authentication: its types, when it was, and the operation that it is for.
#[derive(Clone, Copy, Debug, PartialEq, Eq)]
pub struct Token {
    pub kinds: u64,
    pub time: u64,
    pub challenge: u64,
}

// Clock and floor are ms since 1970, uptime and the token's time ms since the device started.
#[derive(Clone, Copy, Debug, PartialEq, Eq)]
pub struct Request {
    pub purpose: u64,
    pub digest: u64,
    pub padding: u64,
    pub clock: u64,
    pub floor: u64,
    pub uptime: u64,
    pub handle: u64,
    pub token: Option<Token>,
    pub locked: bool,
    pub present: bool,
    pub confirmed: bool,
    pub early_boot_over: bool,
    pub uses: u64,
}
