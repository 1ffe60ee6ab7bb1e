//! The default ports of schemes.
ghost use Rattle.std.specs.Prelude.{◌≡◌, ◌<◌, ◌+◌, map};
ghost use Rattle.std.specs.Str.{str_to_ascii_lowercase};
ghost use Rattle.uri_parts.specs.SchemePorts.{default_port, port_ignoring_case, rows_by_letter, rows_of_letter};

/// The schemes that have a default port, each with it: those that begin with `a`, with `b`, and so
/// on.
const DEFAULT_PORTS: &[&[(&str, u16)]; 26] = &[
    &[("aaa", 3868), ("aaas", 5658), ("acap", 674)],
    &[],
    &[
        ("cap", 1026),
        ("coap", 5683),
        ("coap+tcp", 5683),
        ("coap+ws", 80),
        ("coaps", 5684),
        ("coaps+tcp", 5684),
        ("coaps+ws", 443),
    ],
    &[("dict", 2628), ("dns", 53)],
    &[],
    &[("ftp", 21)],
    &[("go", 1096), ("gopher", 70)],
    &[("http", 80), ("https", 443)],
    &[("icap", 1344), ("imap", 143), ("ipp", 631), ("ipps", 631)],
    &[],
    &[],
    &[("ldap", 389)],
    &[("mtqp", 1038), ("mupdate", 3905)],
    &[("nfs", 2049), ("nntp", 119)],
    &[],
    &[("pop", 110)],
    &[],
    &[("rtsp", 554), ("rtsps", 322), ("rtspu", 554)],
    &[("snmp", 161), ("stun", 3478), ("stuns", 5349)],
    &[
        ("telnet", 23),
        ("tip", 3372),
        ("tn3270", 23),
        ("turn", 3478),
        ("turns", 5349),
    ],
    &[],
    &[("vemmi", 575), ("vnc", 5900)],
    &[("ws", 80), ("wss", 443)],
    &[],
    &[],
    &[("z39.50r", 210), ("z39.50s", 210)],
];

/// Returns the rows of a table whose schemes begin with a letter, which is the nth from `a` on.
fn rows_of_letter<'a>(
    table: &[&'a [(&'static str, u16)]; 26],
    nth: usize,
) -> &'a [(&'static str, u16)]
    requires table { map (λ rows. map (λ row. (row.0.now, row.1)) rows.now) table.now
        ≡ rows_by_letter }
    requires letter { nth < 26 }
    ensures { map (λ row. (row.0.now, row.1)) result.now ≡ rows_of_letter (97 + nth) }
{
    table[nth]
}

/// Returns the default port of a scheme, if it has one: ASCII case makes no difference. Only the
/// rows are looked at that begin with its letter.
pub(crate) fn of_scheme(scheme: &str) -> Option<u16>
    ensures { result ≡ default_port (str_to_ascii_lowercase scheme.now) }
{
    let bytes = scheme.as_bytes();
    if bytes.is_empty() {
        return None;
    }
    let letter = bytes[0].to_ascii_lowercase();
    if !letter.is_ascii_lowercase() {
        return None;
    }
    let rows = rows_of_letter(DEFAULT_PORTS, usize::from(letter - b'a'));
    port_of_named_row(rows, scheme)
}

/// Returns the port of the first row with this name, ASCII case apart.
fn port_of_named_row(rows: &[(&str, u16)], name: &str) -> Option<u16>
    ensures { result ≡ port_ignoring_case name.now
        (map (λ row. (row.0.now, row.1)) rows.entry.now) }
{
    let (_, port) = rows.iter().find(|row| row.0.eq_ignore_ascii_case(name))?;
    Some(*port)
}
