//! Worked data, on which the definitions are computed.
ghost use Rattle.std.specs.Prelude.{◌≡◌, ◌∷◌, ◌++◌, [], List, None, Some, codes, false, map};
ghost use Rattle.std.specs.Prelude.{replicate, true, ℕ};
ghost use Rattle.std.specs.List.{concat, last_or};
ghost use Rattle.zaxbriar_metadata.specs.Collected.{collection_of, data_named, exif_name};
ghost use Rattle.zaxbriar_metadata.specs.Collected.{extension_name, extension_of, iptc_of, nothing};
ghost use Rattle.zaxbriar_metadata.specs.Collected.{photoshop_name, thumbnail_of, xmp_name};
ghost use Rattle.zaxbriar_metadata.specs.Exif.{joined_exif, thumbnail_in, with_exif};
ghost use Rattle.zaxbriar_metadata.specs.Photoshop.{iptc_in};
ghost use Rattle.zaxbriar_metadata.specs.Worked.{cut_exif, cut_resources, cut_thumbnail};
ghost use Rattle.zaxbriar_metadata.specs.Worked.{extended_segments, extension_part, main_packet};
ghost use Rattle.zaxbriar_metadata.specs.Worked.{other_segments, several_segments, two_resources};
ghost use Rattle.zaxbriar_metadata.specs.Worked.{with_thumbnail};
ghost use Rattle.zaxbriar_metadata.specs.Xmp.{extended_xmp};

/// The Exif data of segments and one more are those of the segments, continued or begun anew.
#[tactic(auto, using(crate::proofs::Rules::segments))]
pub fn segments_are_joined()
    ensures { (segments : List (List ℕ)) (segment : List ℕ)
        → joined_exif (segments ++ segment ∷ []) ≡ with_exif (joined_exif segments) segment }
{}

/// The last segment with a TIFF header counts, with those after it that have none, and without a
/// header all of them.
#[tactic(auto, unfolding(crate::proofs::OnLiterals::exif))]
pub fn known_segments()
    ensures none { joined_exif [] ≡ None }
    ensures one { joined_exif ((1 ∷ 2 ∷ []) ∷ []) ≡ Some (1 ∷ 2 ∷ []) }
    ensures several { joined_exif ((73 ∷ 73 ∷ 42 ∷ 0 ∷ 1 ∷ []) ∷ (2 ∷ []) ∷ (77 ∷ 77 ∷ 0 ∷ 42 ∷ [])
        ∷ (3 ∷ 4 ∷ []) ∷ (5 ∷ []) ∷ []) ≡ Some (77 ∷ 77 ∷ 0 ∷ 42 ∷ 3 ∷ 4 ∷ 5 ∷ []) }
    ensures headless { joined_exif ((1 ∷ []) ∷ (77 ∷ 77 ∷ 42 ∷ 0 ∷ []) ∷ [])
        ≡ Some (1 ∷ 77 ∷ 77 ∷ 42 ∷ 0 ∷ []) }
{}

/// A thumbnail of two bytes stands at offset 40, in either order of bytes. There is none where its
/// second byte is missing, nor without a second directory.
#[tactic(auto, unfolding(crate::proofs::OnLiterals::exif))]
pub fn known_thumbnails()
    ensures found { map thumbnail_in (map with_thumbnail (true ∷ false ∷ []))
        ≡ Some (255 ∷ 216 ∷ []) ∷ Some (255 ∷ 216 ∷ []) ∷ [] }
    ensures cut { map thumbnail_in (map cut_thumbnail (41 ∷ 39 ∷ 14 ∷ 13 ∷ 3 ∷ []))
        ≡ replicate 5 None }
{}

/// A resource whose data are padded stands before the IPTC data, whose name is padded. There are
/// none where the last byte is missing.
#[tactic(auto, unfolding(crate::proofs::OnLiterals::photoshop))]
pub fn known_resources()
    ensures found { iptc_in (two_resources ++ 28 ∷ 2 ∷ []) ≡ Some (28 ∷ 2 ∷ []) }
    ensures cut { iptc_in (two_resources ++ 28 ∷ []) ≡ None }
    ensures empty { iptc_in [] ≡ None }
{}

/// Two parts are joined by their offsets. Where one is missing, is there twice or names another
/// length, there is no extension, and parts of another GUID are passed over.
#[tactic(auto, unfolding(crate::proofs::OnLiterals::xmp))]
pub fn known_extensions()
    ensures joined { map (extended_xmp main_packet)
        ((extension_part 65 2 1 ∷ extension_part 65 2 0 ∷ [])
        ∷ (extension_part 66 2 0 ∷ extension_part 65 1 0 ∷ []) ∷ [])
        ≡ Some (0 ∷ 1 ∷ []) ∷ Some (0 ∷ []) ∷ [] }
    ensures none { map (extended_xmp main_packet) ((extension_part 65 2 0 ∷ [])
        ∷ (extension_part 65 1 0 ∷ extension_part 65 1 0 ∷ [])
        ∷ (extension_part 65 2 0 ∷ extension_part 65 3 1 ∷ [])
        ∷ (extension_part 66 1 0 ∷ []) ∷ [] ∷ []) ≡ replicate 5 None }
    ensures unnamed { extended_xmp (codes "xmpNote:HasExtendedXMP=") (extension_part 65 1 0 ∷ [])
        ≡ None }
{}

/// What segments bring of each kind are the data of those with a number and a name: Exif data
/// joined, the last XMP data, each part of extended XMP data, and image resources one after the
/// other. No segment has two of the names.
#[tactic(auto, using(crate::proofs::Rules::kinds))]
pub fn segments_are_collected_by_name()
    ensures exif { (segments : List (ℕ × List ℕ))
        → (collection_of segments).exif ≡ joined_exif (data_named 1 exif_name segments) }
    ensures xmp { (segments : List (ℕ × List ℕ))
        → (collection_of segments).xmp ≡ last_or None (data_named 1 xmp_name segments) }
    ensures extensions { (segments : List (ℕ × List ℕ))
        → (collection_of segments).extensions ≡ data_named 1 extension_name segments }
    ensures resources { (segments : List (ℕ × List ℕ)) → (collection_of segments).resources
        ≡ concat (data_named 13 photoshop_name segments) }
{}

/// Exif data go on in the segment after the next, and so do image resources; of two segments with
/// XMP data the last counts, and one that another application or no name has brings nothing.
#[tactic(auto, unfolding(crate::proofs::OnLiterals::collections))]
pub fn known_collections()
    ensures none { collection_of [] ≡ nothing }
    ensures all { collection_of several_segments ≡ record {
      exif = Some (73 ∷ 73 ∷ 42 ∷ 0 ∷ 7 ∷ []);
      xmp = Some (3 ∷ []);
      extensions = (1 ∷ []) ∷ (2 ∷ []) ∷ [];
      resources = 8 ∷ 9 ∷ [];
    } }
    ensures others { collection_of other_segments ≡ nothing }
{}

/// What is found in segments is what is found in the data of each kind.
#[tactic(auto, unfolding(crate::proofs::OnLiterals::collections))]
pub fn known_findings()
    ensures thumbnail { thumbnail_of (collection_of cut_exif) ≡ Some (255 ∷ 216 ∷ []) }
    ensures extension { extension_of (collection_of extended_segments) ≡ Some (0 ∷ 1 ∷ []) }
    ensures iptc { iptc_of (collection_of cut_resources) ≡ Some (28 ∷ 2 ∷ []) }
    ensures none { map (λ find. find (collection_of other_segments))
        (thumbnail_of ∷ extension_of ∷ iptc_of ∷ []) ≡ None ∷ None ∷ None ∷ [] }
{}
