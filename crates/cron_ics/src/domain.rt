//! The domain that names a calendar's writer.
ghost use Rattle.std.specs.Prelude.{◌≡◌, codes, false, true, MatchOption};
ghost use Rattle.std.specs.List.{list_all};
ghost use Rattle.cron_ics.specs.Domains.{is_domain, is_domain_byte};

/// The name of a calendar's writer, such as a machine: the same entries on another machine get
/// other UIDs. It isn't empty, and has only ASCII letters and digits, `-`, `.` and `_`.
#[derive(Clone, Copy)]
pub struct Domain<'a> {
    pub text: &'a [u8],
    ghost plain: { is_domain text.now ≡ true },
}

// Whether a domain may hold `byte`.
fn is_domain_byte(byte: u8) -> bool
    ensures { result ≡ is_domain_byte byte }
{
    byte.is_ascii_alphanumeric() || byte == b'-' || byte == b'.' || byte == b'_'
}

// Whether a domain may hold all of `bytes`.
fn are_domain_bytes(bytes: &[u8]) -> bool
    ensures { result ≡ list_all is_domain_byte bytes.now }
{
    bytes.iter().all(|byte| is_domain_byte(*byte))
}

// Whether `text` is a domain.
fn is_domain(text: &[u8]) -> bool
    ensures { result ≡ is_domain text.now }
{
    !text.is_empty() && are_domain_bytes(text)
}

impl<'a> Domain<'a> {
    /// The domain `text`, or `None` if `text` is no domain.
    pub fn new(text: &'a [u8]) -> Option<Domain<'a>>
        ensures { MatchOption result
            (is_domain text.now ≡ false)
            (λ domain. domain.text.now ≡ text.now) }
    {
        if !is_domain(text) {
            return None;
        }
        Some(Domain { text })
    }

    /// The domain `crontool`, the program's name, for calendars that are given no other domain.
    pub fn of_program() -> Domain<'static>
        ensures { result.text.now ≡ codes "crontool" }
    {
        Domain { text: b"crontool" }
    }
}
