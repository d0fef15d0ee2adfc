//! Laws of bundles that are written in another version.

ghost use Rattle.ap_bundle_commands.specs.ConvertLaws.{ConvertedBack, ConvertedIsCheckedAlike, ConvertedIsRead, WrittenIsConverted};

/// What is written of a bundle in one version becomes what is written of it in the other, and from there the
/// bytes with which it began. And whatever bytes a bundle was read of, what they become is read as that
/// bundle, and the report of a check is the same on both.
pub fn written_is_converted()
    ensures there { WrittenIsConverted }
    ensures back { ConvertedBack }
    ensures read { ConvertedIsRead }
    ensures checked { ConvertedIsCheckedAlike }
{}
