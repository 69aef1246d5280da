use crate::table_pairs::TablePairs;
use fuse_guest::TalkFault;
use guest_talk::Talk;
use sqlite::Alter;

/// A request that ended so many guests in a row, each while it was asked.
#[derive(Clone, Copy, Debug, PartialEq, Eq)]
pub struct Deaths {
    pub id: u64,
    pub count: u32,
}

/// Why a guest can't be asked any more, and the id and the opcode of the request that it was asked.
/// No fault stands for a request that no frame says.
#[derive(Clone, Copy, Debug, PartialEq, Eq)]
pub struct Broken {
    pub id: u64,
    pub opcode: u32,
    pub fault: Option<TalkFault>,
}

/// A guest's store: its pairs in a database, and the talk with the guest.
#[derive(Drop)]
pub(crate) struct GuestStore<S: Alter, R, W> {
    pub(crate) pairs: TablePairs<S>,
    pub(crate) talk: Talk<R, W>,
    pub(crate) broken: Option<Broken>,
}
