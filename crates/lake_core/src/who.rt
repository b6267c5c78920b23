/// A session, and the place in the script of the statement that it runs.
#[derive(Clone, Copy, Debug)]
pub struct Who {
    pub session: u32,
    pub place: u32,
}
