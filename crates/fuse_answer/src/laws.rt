ghost use Rattle.std.specs.Prelude.{◌≡◌};
ghost use Rattle.fuse_wire.specs.Bounds as bounds;
ghost use Rattle.fuse_answer.specs.Sizes as sizes;
ghost use Rattle.fuse_answer.specs.FurtherAnswers.{create_out_size};
ghost use Rattle.fuse_answer.specs.Laws.{LenStandsFirst, ReadBack, RecordSizes};

use crate::answer::MAX_BODY;
use crate::dirent::{Dirent, MAX_NAME};
use crate::further::{CreateOut, LseekOut, StatfsOut, XattrOut};
use crate::init_out::InitOut;
use crate::records::{Attr, AttrOut, EntryOut, OpenOut, OutHeader, WriteOut};
use crate::reply::{MAX_ERRNO, MAX_TARGET};
use fuse_wire::{layouts_stand, numbers_read};

/// Every answer begins with its own length.
pub fn len_stands_first()
    ensures { LenStandsFirst }
{
    numbers_read();
    layouts_stand();
}

/// How long the records are, and entries of a directory.
pub fn record_sizes()
    ensures { RecordSizes }
{
    layouts_stand();
}

/// Which answers are read.
pub fn read_back()
    ensures { ReadBack }
{
    numbers_read();
    layouts_stand();
}

/// The sizes of the structs of `fuse.h`, how long bodies, names and targets are, and which error
/// numbers answers bear.
pub fn answer_numbers()
    ensures header { OutHeader.SIZE ≡ sizes.out_header_size }
    ensures attr { Attr.SIZE ≡ sizes.attr_size }
    ensures entry { EntryOut.SIZE ≡ sizes.entry_out_size }
    ensures attributes { AttrOut.SIZE ≡ sizes.attr_out_size }
    ensures opened { OpenOut.SIZE ≡ sizes.open_out_size }
    ensures written { WriteOut.SIZE ≡ sizes.write_out_size }
    ensures init { InitOut.SIZE ≡ sizes.init_out_size }
    ensures created { CreateOut.SIZE ≡ create_out_size }
    ensures statfs { StatfsOut.SIZE ≡ sizes.statfs_out_size }
    ensures xattr { XattrOut.SIZE ≡ sizes.getxattr_out_size }
    ensures lseek { LseekOut.SIZE ≡ sizes.lseek_out_size }
    ensures name_at { Dirent.NAME_AT ≡ sizes.dirent_name_offset }
    ensures body { MAX_BODY ≡ bounds.max_body_len }
    ensures name { MAX_NAME ≡ bounds.max_name_len }
    ensures target { MAX_TARGET ≡ sizes.max_target_len }
    ensures error { MAX_ERRNO ≡ bounds.max_error_number }
{}
