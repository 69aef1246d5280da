//! The parts of FUSE messages: little-endian numbers, names that end in a NUL, request ids, error
//! numbers and flag sets.
#![tactic(auto)]

mod access_mode;
mod byte_list;
mod constants;
mod errno;
mod field;
mod fields;
mod id;
mod init_flags;
mod laws;
mod memory;
mod moment;
pub mod opcode;
mod places;
mod put;
mod setattr_valid;

pub use access_mode::{AccessMode, FOPEN_KEEP_CACHE, O_ACCMODE, O_RDONLY, O_RDWR, O_WRONLY};
pub use byte_list::ByteList;
pub use constants::{
    access_numbers, errno_numbers, init_flag_numbers, opcode_numbers, valid_numbers,
};
pub use errno::Errno;
pub use field::{Field, put_fields};
pub use fields::Fields;
pub use id::{Id, UNIQUE_RESEND, is_resend};
pub use init_flags::InitFlags;
pub use laws::{layouts_stand, names_end, numbers_read, one_number};
pub use memory::Memory;
pub use moment::Moment;
pub use places::{u16_at, u32_at, u64_at};
pub use put::{put_bytes, put_i32, put_u16, put_u32, put_u64};
pub use setattr_valid::SetattrValid;
