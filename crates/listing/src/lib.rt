// Sheets that are held in lent lists, one for each field, for callers that cannot pass a sheet whole. The answer, and the list at exit, are proved equal to a
// meaning of `specs/LentLists`, for every input.
#![tactic(auto)]

mod lists; // groups and commands from the lists
pub mod write_lists; // a held sheet from the lists, written into a lent list
mod zeros; // the zeros of groups from their list
