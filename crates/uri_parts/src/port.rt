//! Ports as numbers (RFC 3986, section 3.2.3).
ghost use Rattle.std.specs.Prelude.{◌≡◌, IfErr, OkIff};
ghost use Rattle.std.specs.Str.Parse.{error_kind};
ghost use Rattle.std.specs.declared.num.IntErrorKind.TheVariants.{PosOverflow};
ghost use Rattle.uri_parts.specs.Authority.{authority_parts};
ghost use Rattle.uri_parts.specs.Ports.{port_number, FitsPort};
ghost use Rattle.uri_parts.specs.AuthorityTexts.{authority_text};

use crate::component::Authority;
use std::num::ParseIntError;
use uri_pct::encoder::Encoder;

impl<'a, U: Encoder, R: Encoder> Authority<'a, U, R> {
    /// Returns the port as a number (RFC 3986, section 3.2.3), or `None` if it is absent or empty.
    /// Leading zeros make no difference.
    ///
    /// Returns 80 for `a:0080`, `None` for `a:` and `a`, and an error for `a:65536`.
    ///
    /// # Errors
    ///
    /// Returns an error exactly if the number is over 65535, however long it is. Its kind is
    /// `PosOverflow`.
    pub fn port_to_u16(self) -> Result<Option<u16>, ParseIntError>
        ensures number { let p = authority_parts (authority_text self.entry) in
            OkIff result (FitsPort (port_number p.port)) (port_number p.port) }
        ensures refused { IfErr result (λ e. error_kind e ≡ PosOverflow) }
    {
        match self.port() {
            Some(port) if !port.is_empty() => Ok(Some(port.as_str().parse()?)),
            _ => Ok(None),
        }
    }
}
