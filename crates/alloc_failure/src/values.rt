//! Values that tests take, and what they compare them with.
use fluent_uri::Reference;
use fluent_uri::pct_enc::EStr;
use fluent_uri::pct_enc::encoder::Encoder;
use integration_tests::comparison::equal;
use std::process::Abort;
use uri_parts::kind::Kind;

/// Parses a literal text of any kind for a test of denied memory, or ends the test.
pub fn parsed<'a, R: Abort, K: Kind>(rt: &R, text: &'a str) -> Reference<K, &'a str> {
    Reference::<K, &str>::parse(text).expect(rt, text)
}

/// Makes an encoded text of a literal for a test of denied memory, or ends the test.
pub fn encoded<'a, R: Abort, E: Encoder>(rt: &R, text: &'a str) -> EStr<'a, E> {
    EStr::new(text).expect(rt, text)
}

/// Ends a test of denied memory unless two texts are equal.
pub fn is_text<R: Abort>(rt: &R, got: &str, wanted: &str) {
    equal(got, wanted).expect(rt, wanted);
}

/// Ends a test of denied memory unless an encoded text is present and equal to a literal.
pub fn is_encoded<R: Abort, E: Encoder>(rt: &R, got: Option<EStr<'_, E>>, wanted: &str) {
    is_text(rt, got.expect(rt, wanted).as_str(), wanted);
}

/// Ends a test of denied memory unless this holds.
pub fn holds<R: Abort>(rt: &R, is_so: bool, what: &str) {
    equal(is_so, true).expect(rt, what);
}
