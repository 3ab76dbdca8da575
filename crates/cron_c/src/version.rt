//! The version of the interface.

ghost use Rattle.std.specs.Prelude.{◌≡◌};
ghost use Rattle.cron_c.specs.Statuses.{version_number};

/// The version of the archive: 10,000 times its first number, plus 100 times its second, plus its
/// third. The first number changes when callers of an earlier version can no longer rely on the
/// interface.
#[unsafe(no_mangle)]
pub extern "C" fn cron_c_version() -> u32
    ensures { result ≡ version_number 1 7 0 }
{
    10_700
}
