use fuse_answer::Answer;
use fuse_rows::ChangeList;

/// The answer to a request, and the changes of the rows.
#[derive(Drop)]
pub struct Planned {
    pub answer: Answer,
    pub changes: ChangeList,
}
