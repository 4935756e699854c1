//! The codes of the book.

use crate::entry::Row;

/// The codes `B`.
pub(crate) const BOOKS: [Row; 4] = [
    (
        "B01",
        "503",
        "Memory was short, and nothing was changed. Or a row or a sum is too big. At a start: memory was short for the book",
        "Send the same request again. The office gives the program more memory (docs/OPERATION.md)",
        &[],
    ),
    (
        "B02",
        "",
        "At a start, and of `audit`: the file is no book, or a damaged one. The program ends with status 1",
        "The line says which row or table is at fault. Restore the last backup (docs/OPERATION.md)",
        &[],
    ),
    (
        "B03",
        "503",
        "The disk failed or is full. Each request is answered so until the program is started again. At a start: the file cannot be opened",
        "The office mends the disk and starts the program again. Then send the last request again: what was done is held",
        &[],
    ),
    (
        "B04",
        "",
        "At a start: the file is a book of a later version. Of `audit`: of any other version than 3. The program ends with status 1, and the file stays as it is",
        "A later book needs its own program. A start brings an earlier one to version 3 (docs/OPERATION.md, Upgrade)",
        &[],
    ),
];
