ghost use Rattle.std.specs.Prelude.{◌≡◌};
ghost use Rattle.up_script.specs.Versions.{has_modes, version_in, object_size, is_mode_word};

/// Objects have a mode in a script of this version.
pub fn has_modes(version: u32) -> bool
    ensures { result ≡ has_modes version }
{
    version == 2
}

/// The version that the first line of a script says.
pub fn read_version(line: &[u8]) -> Option<u32>
    ensures { result ≡ version_in line.now }
{
    if line == b"pagerd-script 1".as_slice() {
        return Some(1);
    }
    if line == b"pagerd-script 2".as_slice() {
        return Some(2);
    }
    None
}

/// How many words the line of an object has.
pub fn object_size(version: u32) -> usize
    ensures { result ≡ object_size version }
{
    if has_modes(version) { 7 } else { 6 }
}

/// The word is a mode; in version 1 no word has to be one.
pub fn says_mode(version: u32, word: &[u8]) -> bool
    ensures { result ≡ is_mode_word version word.now }
{
    if has_modes(version) {
        word == b"ranged".as_slice() || word == b"numbered".as_slice()
    } else {
        true
    }
}
