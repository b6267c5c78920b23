/// An open transaction: its number, and the version that it sees.
#[derive(Clone, Copy, Debug, PartialEq, Eq)]
pub struct RunningTxn {
    pub number: u64,
    pub snapshot: u64,
}
