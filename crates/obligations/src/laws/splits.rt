//! The components of a text, and of an authority (RFC 3986, sections 3 and 3.2, and appendix B).
ghost use Rattle.std.specs.Prelude.{◌≡◌, codes};
ghost use Rattle.fluent_uri.specs.Prelude.{AuthorityParts, Components, IsAuthorityFor, IsSplitOf, Lacks, authority_text, components, text_of, uri, uri_ref_text};

use fluent_uri::component::Authority;
use fluent_uri::pct_enc::EStr;
use fluent_uri::pct_enc::encoder::Path;
use fluent_uri::{UriRef, laws};

/// A caller that appends `?` and a query to a path proves that the path ends where its query
/// begins: it has no `?` and no `#`.
pub fn path_before_a_query<'a>(reference: UriRef<&'a str>) -> EStr<'a, Path>
    ensures { Lacks (codes "?#") (text_of result) }
{
    laws::components_are_a_split();
    reference.path()
}

/// A caller that cuts texts by an expression of its own, as that of appendix B, proves that its
/// path is the one that the library returns.
pub fn path_of_another_cut<'a>(reference: UriRef<&'a str>) -> EStr<'a, Path>
    ensures { (p : Components) → IsSplitOf (uri_ref_text reference.entry) p
        → p.path ≡ text_of result }
{
    laws::components_are_the_only_split();
    reference.path()
}

/// A caller that keeps the components of two references proves that the references have one text
/// if they have the same components.
pub fn same_if_components_are(one: UriRef<&str>, other: UriRef<&str>)
    requires { components (uri_ref_text one) ≡ components (uri_ref_text other) }
    ensures { uri_ref_text one.entry ≡ uri_ref_text other.entry }
{
    laws::components_recompose();
}

/// A caller that allows or denies by host proves that any other reader of RFC 3986 finds the same
/// host.
pub fn host_of_every_reader<'a>(authority: Authority<'a>) -> &'a str
    ensures { (p : AuthorityParts) → IsAuthorityFor uri.userinfo uri.reg_name
        (authority_text authority.entry) p → p.host ≡ result.now }
{
    laws::authorities_split_in_one_way();
    let _text = authority.as_str();
    authority.host()
}
