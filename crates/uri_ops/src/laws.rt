//! Laws of the definitions that contracts cite, each the contract of a function that does nothing.
ghost use Rattle.std.specs.Prelude.{◌≡◌, ◌↔◌, ◌≤◌, ◌++◌, ◌||◌, ℕ, List, [], true, false, length, is_some, IsUtf8};
ghost use Rattle.uri_pct.specs.Prelude.{IsSubset, IsValidFor, LacksPercent, TableSet, decode_unreserved, number_sign, print, unreserved_set};
ghost use Rattle.uri_parts.specs.Prelude.{AuthorityParts, HostKind, IsAbemptyPath, IsAuthorityFor, IsHost, IsInGrammar, IsOfKind, IsSplitOf, authority_parts, components, host_kind, iri, iri_ref, recompose, starts, uri, uri_ref};
ghost use Rattle.uri_ops.specs.Dots.{is_empty, remove_dot_segments, underflows, directory, lacks_dot_segments, buffers_after_removal, IsAbsolute, EndsInSlash};
ghost use Rattle.uri_ops.specs.Target.{is_fragment_only, target_of};

#[doc(hidden)]
pub mod iri_uri;
#[doc(hidden)]
pub mod normal_form;
#[doc(hidden)]
pub mod resolve_normalize;

/// The loop that removes dot segments ends with an empty input (RFC 3986, section 5.2.4).
///
/// For `/a/./b` the input is empty after `/a`, `/.` and `/b`.
#[tactic(auto, using(crate::proofs::Theorems::dot_runs))]
pub fn removing_dot_segments_reads_the_whole_path()
    ensures { (path : List ℕ) → (buffers_after_removal path).input ≡ [] }
{}

/// The path whose dot segments are removed has none, begins with `/` and is no longer than it was
/// (RFC 3986, section 5.2.4).
///
/// `/a/./b/../c` leaves `/a/c`.
#[tactic(auto, using(crate::proofs::Theorems::removed_laws))]
pub fn no_dot_segment_is_left()
    ensures dotless { (path : List ℕ) → IsAbsolute path
        → lacks_dot_segments (remove_dot_segments path) ≡ true }
    ensures absolute { (path : List ℕ) → IsAbsolute path → IsAbsolute (remove_dot_segments path) }
    ensures short { (path : List ℕ) → IsAbsolute path
        → length (remove_dot_segments path) ≤ length path }
{}

/// A path without dot segments is left as it is, and does not underflow.
///
/// `/a/b` leaves `/a/b`.
#[tactic(auto, using(crate::proofs::Theorems::dotless_laws))]
pub fn paths_without_dot_segments_are_left_as_they_are()
    ensures removed { (path : List ℕ) → IsAbsolute path → lacks_dot_segments path ≡ true
        → remove_dot_segments path ≡ path }
    ensures underflow { (path : List ℕ) → IsAbsolute path → lacks_dot_segments path ≡ true
        → underflows path ≡ false }
{}

/// To remove dot segments twice is to remove them once.
///
/// `/a/../b` leaves `/b`, which leaves `/b`.
#[tactic(auto, using(crate::proofs::Paths::DotLaws::removing_dots_is_idempotent))]
pub fn removing_dot_segments_is_idempotent()
    ensures { (path : List ℕ) → IsAbsolute path
        → remove_dot_segments (remove_dot_segments path) ≡ remove_dot_segments path }
{}

/// A directory begins with and ends in `/`, and its dot segments may be removed before it is taken
/// or after.
///
/// The directory of `/a/./b` is `/a/./`, which leaves `/a/`; `/a/./b` leaves `/a/b`, whose
/// directory is `/a/`.
#[tactic(auto, using(crate::proofs::Theorems::directory_laws))]
pub fn taking_directories_and_removing_dots_swap()
    ensures absolute { (path : List ℕ) → IsAbemptyPath path → IsAbsolute (directory path) }
    ensures closed { (path : List ℕ) → IsAbemptyPath path → EndsInSlash (directory path) }
    ensures removed { (path : List ℕ) → IsAbemptyPath path
        → remove_dot_segments (directory path) ≡ directory (remove_dot_segments path) }
    ensures underflow { (path : List ℕ) → IsAbemptyPath path
        → underflows (directory path) ≡ underflows path }
{}

/// If a prefix of a path ends in `/`, its dot segments may be removed before those of the path. The
/// path underflows exactly if the prefix does, or if what is left of the prefix does with the rest
/// of the path after it.
///
/// `/a/./` and `b` come to `/a/b`, as `/a/` and `b` do.
#[tactic(auto, using(crate::proofs::Theorems::piece_laws))]
pub fn leading_dots_may_be_removed_first()
    ensures removed { (prefix back : List ℕ) → IsAbsolute prefix → EndsInSlash prefix
        → remove_dot_segments (prefix ++ back)
        ≡ remove_dot_segments (remove_dot_segments prefix ++ back) }
    ensures underflow { (prefix back : List ℕ) → IsAbsolute prefix → EndsInSlash prefix
        → underflows (prefix ++ back)
        ≡ (underflows prefix || underflows (remove_dot_segments prefix ++ back)) }
{}

/// Dot segments of a base's path may be removed before a reference's path is merged with it (RFC
/// 3986, section 5.2.3).
///
/// `/a/./b` and `c` come to `/a/c`, as `/a/b` and `c` do.
#[tactic(auto, using(crate::proofs::Theorems::merging_laws))]
pub fn base_dots_may_be_removed_before_merging()
    ensures removed { (base reference : List ℕ) → IsAbemptyPath base
        → remove_dot_segments (directory base ++ reference)
        ≡ remove_dot_segments (directory (remove_dot_segments base) ++ reference) }
    ensures underflow { (base reference : List ℕ) → IsAbemptyPath base
        → underflows (directory base ++ reference)
        ≡ (underflows base || underflows (directory (remove_dot_segments base) ++ reference)) }
{}

/// Dot segments may be removed before or after unreserved octets are decoded, and decoding changes
/// no underflow.
///
/// `/%2E/%41` without dot segments is `/%41`, which decodes to `/A`; it decodes to `/./A`, which
/// without dot segments is `/A`.
pub fn removing_dots_and_decoding_swap()
    ensures removed { (set : TableSet) (path : List ℕ) → LacksPercent set
        → IsSubset unreserved_set set → IsAbsolute path → IsUtf8 path → IsValidFor set path
        → remove_dot_segments (print (decode_unreserved set path))
        ≡ print (decode_unreserved set (remove_dot_segments path)) }
    ensures underflow { (set : TableSet) (path : List ℕ) → LacksPercent set
        → IsSubset unreserved_set set → IsAbsolute path → IsUtf8 path → IsValidFor set path
        → underflows (print (decode_unreserved set path)) ≡ underflows path }
{}

/// The text of a target has the components that were put into it, where the base has a scheme
/// (RFC 3986, sections 5.2.2 and 5.3).
#[doc(hidden)]
#[tactic(auto, using(crate::proofs::Theorems::target_laws))]
pub fn targets_have_the_components_put_into_them()
    ensures split { (base reference : List ℕ) → is_some (components base).scheme ≡ true
        → IsSplitOf (recompose (target_of (components base) (components reference)))
        (target_of (components base) (components reference)) }
    ensures components { (base reference : List ℕ) → is_some (components base).scheme ≡ true
        → components (recompose (target_of (components base) (components reference)))
        ≡ target_of (components base) (components reference) }
{}

/// The references without a scheme that an opaque base takes are the empty text and those that
/// begin with `#`.
#[doc(hidden)]
#[tactic(auto, using(crate::proofs::Targeting::Targets::fragment_only_is_empty_or_leading_hash))]
pub fn opaque_bases_take_fragments_alone()
    ensures { (reference : List ℕ)
        → is_fragment_only (components reference)
        ≡ (is_empty reference || starts number_sign reference) }
{}

/// The tests of the four kinds (`IsOfKind` of `uri_parts`) allow exactly the texts of the RFCs'
/// grammars: a text has a split into components, each of which follows its rule, and the authority
/// has a split too (RFC 3986, sections 3, 3.2 and 4.2, and appendix B; RFC 3987, section 2.2).
///
/// `foo:a` is a URI: the scheme `foo`, no authority, and the path `a`.
#[tactic(auto, using(crate::proofs::Theorems::grammar_laws))]
pub fn kinds_match_the_rfc_grammars()
    ensures uri { (text : List ℕ) → IsUtf8 text → (IsOfKind uri text ↔ IsInGrammar uri text) }
    ensures uri_ref { (text : List ℕ) → IsUtf8 text
        → (IsOfKind uri_ref text ↔ IsInGrammar uri_ref text) }
    ensures iri { (text : List ℕ) → IsUtf8 text → (IsOfKind iri text ↔ IsInGrammar iri text) }
    ensures iri_ref { (text : List ℕ) → IsUtf8 text
        → (IsOfKind iri_ref text ↔ IsInGrammar iri_ref text) }
{}

/// By the grammars of the RFCs, an authority has one cut into userinfo, host and port, and a host
/// is of one kind (RFC 3986, sections 3.2 and 3.2.2; RFC 3987, section 2.2).
///
/// `u@a:80` is cut into `u`, `a` and `80` alone.
#[tactic(auto, using(crate::proofs::Theorems::cut_laws))]
pub fn authorities_split_in_one_way()
    ensures uri { (text : List ℕ) (p : AuthorityParts) → IsUtf8 text
        → IsAuthorityFor uri.userinfo uri.reg_name text p → authority_parts text ≡ p }
    ensures iri { (text : List ℕ) (p : AuthorityParts) → IsUtf8 text
        → IsAuthorityFor iri.userinfo iri.reg_name text p → authority_parts text ≡ p }
    ensures uri_host { (text : List ℕ) (host : HostKind) → IsUtf8 text
        → IsHost uri.reg_name text host → host_kind text ≡ host }
    ensures iri_host { (text : List ℕ) (host : HostKind) → IsUtf8 text
        → IsHost iri.reg_name text host → host_kind text ≡ host }
{}
