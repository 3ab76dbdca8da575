//! The files that notes are written to.

ghost use Rattle.std.specs.Prelude.{Result, ⊤};
ghost use Rattle.std.specs.declared.io.Error.{Error};
ghost use Rattle.cron_notes.specs.Changes.{Change};
ghost use Rattle.cron_notes.specs.Changes.Change.{Write, Sync, Rename, SyncFolder};

use cron_zones::files::ZoneFiles;
use std::io;

/// Files that can be read, and changed. Contracts describe each call by itself: only the type that
/// implements this knows what one call may do. So a function that promises some calls made these,
/// in this order, and no other.
pub trait Store: ZoneFiles {
    // one call: the files before it, the change, the answer, and the files after it
    ghost does: { Self → Change → Result ⊤ Error → Self → Type 0 } = { λ _ _ _ _. Unit {0} };

    /// Writes a file whole, in place of what was at the path.
    fn write(&mut self, path: &str, bytes: &[u8]) -> io::Result<()>
        ensures { does self.old (Write path.now bytes.now) result self.new };

    /// Waits until the bytes of a file are on the disk.
    fn sync(&mut self, path: &str) -> io::Result<()>
        ensures { does self.old (Sync path.now) result self.new };

    /// Gives a file another path, in place of what was there.
    fn rename(&mut self, from: &str, to: &str) -> io::Result<()>
        ensures { does self.old (Rename from.now to.now) result self.new };

    /// Waits until the names in a folder are on the disk.
    fn sync_folder(&mut self, folder: &str) -> io::Result<()>
        ensures { does self.old (SyncFolder folder.now) result self.new };
}
