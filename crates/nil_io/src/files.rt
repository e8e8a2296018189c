//! Named files in memory.

ghost use Rattle.std.specs.Prelude.{◌≡◌, option_map};
ghost use Rattle.nil_io.specs.Files.{contents_of, views};

/// The bytes of the first file with a name.
pub(crate) fn named<'a>(files: &'a [(String, Vec<u8>)], name: &str) -> Option<&'a [u8]>
    ensures { option_map (λ b. b.now) result ≡ contents_of (views files.now) name.now }
{
    for file in files {
        if name == file.0.as_str() {
            return Some(&file.1);
        }
    }
    None
}
