//! The answers of a FUSE server: their records, and their bytes.
#![tactic(auto)]

mod answer;
mod bodies;
mod dirent;
mod fields;
mod further;
mod init_out;
mod laws;
mod notice;
mod packing;
mod plus;
mod records;
mod reply;
mod unpacking;
mod wire;

pub use answer::{Answer, MAX_BODY};
pub use dirent::{Dirent, MAX_NAME};
pub use further::{CreateOut, LseekOut, StatfsOut, XattrOut};
pub use init_out::InitOut;
pub use laws::{answer_numbers, len_stands_first, read_back, record_sizes};
pub use notice::{NOTIFY_RESEND, resend_notice};
pub use packing::{PackFault, Packed, pack};
pub use plus::{PlusDirent, pack_plus};
pub use records::{Attr, AttrOut, EntryOut, OpenOut, OutHeader, WriteOut};
pub use reply::{BadAnswer, MAX_ERRNO, MAX_TARGET, Reply, ReplyBody, read_answer};
pub use unpacking::{Dirents, unpack};
pub use wire::{head_of, write_answer};
