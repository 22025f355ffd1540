// The reader of the targets of a file's edits: the lent bytes and a cursor.
ghost use Rattle.std.specs.Prelude.{◌≡◌};
ghost use Rattle.map_format.specs.Format.{edits_at, edit_at, target_of};

use crate::format::{EDITS_AT, EditTarget, target_at};

#[derive(Clone, Copy)]
pub struct MapReader<'a> {
    pub bytes: &'a [u8],
    pub at: usize,
}

impl<'a> MapReader<'a> {
    // At the first edit.
    pub fn new(bytes: &'a [u8]) -> MapReader<'a>
        ensures { (result.bytes ≡ bytes.entry) × (result.at ≡ edits_at) }
    {
        MapReader {
            bytes,
            at: EDITS_AT,
        }
    }

    // At another place of the same bytes.
    pub fn moved(self, at: usize) -> MapReader<'a>
        ensures { (result.bytes ≡ self.entry.bytes) × (result.at ≡ at) }
    {
        MapReader {
            bytes: self.bytes,
            at,
        }
    }

    // The target of the edit at the cursor.
    pub fn target_here(self) -> EditTarget
        ensures { result ≡ target_of (edit_at self.entry.bytes.now self.entry.at) }
    {
        target_at(self.bytes, self.at)
    }
}

// The target of the edit at a place of a file that `validate` has passed: it reads as `target_at` does.
pub fn target_from(file: &[u8], at: usize) -> EditTarget
    ensures { result ≡ target_of (edit_at file.now at) }
{
    MapReader::new(file).moved(at).target_here()
}
