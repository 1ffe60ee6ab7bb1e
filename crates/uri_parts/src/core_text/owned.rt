//! A core over a text of its own.
ghost use Rattle.std.specs.Prelude.{◌≡◌, IsOk, None, OnErr, OnOk, option_map, string_bytes};
ghost use Rattle.uri_pct.specs.Prelude.{text_of};
ghost use Rattle.uri_parts.specs.CoreTexts.{core_text};
ghost use Rattle.uri_parts.specs.Fragments.{IsWithFragment};

use crate::core_text::Core;
use crate::fragment;
use crate::kind::Kind;
use std::alloc::AllocError;
use uri_pct::pct_enc::EStr;

impl<K: Kind> Core<K, String> {
    /// Replaces the fragment of an owned text by this one, or removes it. If an allocation fails,
    /// the text is as it was. Removing the fragment allocates nothing.
    pub fn set_fragment(
        &mut self,
        fragment: Option<EStr<'_, K::FragmentE>>,
    ) -> Result<(), AllocError>
        ensures set { OnOk result
            (IsWithFragment (core_text self.old) (option_map text_of fragment.entry)
            (core_text self.new)) }
        ensures kept { OnErr result (core_text self.new ≡ core_text self.old) }
        ensures none { fragment.entry ≡ None → IsOk result }
    {
        let positions = self.positions.unpack(self.text.as_str());
        fragment::set_fragment(&mut self.text, &positions, fragment)
    }

    /// Returns the text as a `String`, without a copy.
    pub fn into_string(self) -> String
        ensures text { string_bytes result ≡ core_text self }
        ensures held { result ≡ self.text }
    {
        self.text
    }
}
