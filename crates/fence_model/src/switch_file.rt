// The file of a switch.

use std::fs::{self, File, OpenFile};
use std::io::{self, Write};
use std::rt::Files;

/// Puts a text in place of that of a file. It is written to a file beside, whose name ends with `.new`, and is kept
/// there before that takes the name of the file. So a crash at any moment leaves the old text or the new one.
pub(crate) fn replace_file(
    rt: &(impl Files + AllocGlobal),
    path: &str,
    text: &[u8],
) -> io::Result<()> {
    let beside = format!(in rt.alloc(); "{path}.new")?;
    let mut file = File::create(rt, beside.as_str())?;
    file.write_all(text)?;
    file.sync_all()?;
    fs::rename(rt, beside.as_str(), path)
}
