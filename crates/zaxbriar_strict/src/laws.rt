//! What strict streams mean. Theorems, each on a function without a body.
ghost use Rattle.std.specs.Prelude.{◌≡◌, ℕ, ◌∷◌, ◌++◌, List};
ghost use Rattle.jpeg_meaning.specs.AcceptedFrames.{HasSamples};
ghost use Rattle.jpeg_meaning.specs.ArrayPictures.{meaning_of_array};
ghost use Rattle.jpeg_meaning.specs.Stream.{meaning};
ghost use Rattle.jpeg_meaning.specs.WholeImages.{whole_meaning};
ghost use Rattle.jpeg_meaning.specs.declared.settings.Settings.{Settings};
ghost use Rattle.zaxbriar_strict.specs.Exact.{HasDeepScan, HasHeader, HasLaterTables};
ghost use Rattle.zaxbriar_strict.specs.Exact.{HasOtherAdobe, HasProgressivePicture};
ghost use Rattle.zaxbriar_strict.specs.Exact.{HasSequentialPicture, HasShiftedScan, IsExact};
ghost use Rattle.zaxbriar_strict.specs.Exact.{IsWritten, IsWrittenForSamples};

/// A stream that a writer emits for the coefficients of an image means their picture, cut at the
/// bits that were sent. What follows the image is left.
pub fn written_streams_mean_their_pictures()
    ensures { (settings : Settings) (bytes rest : List ℕ) → (image : IsWritten bytes) →
        meaning settings (bytes ++ rest)
        ≡ meaning_of_array settings image.final image.array image.last rest }
{}

/// A stream of which `judge` says that it is strict (clause `exact`) is written for coefficients,
/// and means the picture of those coefficients themselves, in one scan or several: without the fill
/// bytes that may stand before SOI, and if no Adobe segment gives an unknown transform, its frame
/// is sequential and has a picture, and no quantization table is defined after a scan.
pub fn strict_streams_mean_their_pictures()
    ensures { (bytes : List ℕ) → IsExact bytes → (HasOtherAdobe bytes → ⊥) →
        (headed : HasHeader bytes)
        × (HasSequentialPicture headed.number headed.header →
        (HasLaterTables headed.after → ⊥) →
        (image : IsWritten (255 ∷ 216 ∷ headed.after))
        × ((settings : Settings) (rest : List ℕ) →
        meaning settings (255 ∷ 216 ∷ (headed.after ++ rest))
        ≡ whole_meaning settings image.final image.array rest)) }
{}

/// A progressive stream of which `judge` says that it is strict is written for coefficients, all of
/// whose bits its scans send, and means the picture of those coefficients: without the fill bytes
/// that may stand before SOI, and if no Adobe segment gives an unknown transform, its frame has a
/// picture, no quantization table is defined after a scan, and no scan has a level Al above 7.
pub fn strict_progressive_streams_mean_their_pictures()
    ensures { (bytes : List ℕ) → IsExact bytes → (HasOtherAdobe bytes → ⊥) →
        (headed : HasHeader bytes)
        × (HasProgressivePicture headed.number headed.header →
        (HasLaterTables headed.after → ⊥) → (HasDeepScan headed.after → ⊥) →
        (image : IsWritten (255 ∷ 216 ∷ headed.after))
        × ((settings : Settings) (rest : List ℕ) →
        meaning settings (255 ∷ 216 ∷ (headed.after ++ rest))
        ≡ whole_meaning settings image.final image.array rest)) }
{}

/// A lossless stream of which `judge` says that it is strict is written for samples: without the
/// fill bytes that may stand before SOI, and if no Adobe segment gives an unknown transform, its
/// frame has samples that are decoded, and no scan has a point transform. So it means the picture
/// of those samples, by `lossless_streams_are_read` of `jpeg_decoder`.
pub fn strict_lossless_streams_have_samples()
    ensures { (bytes : List ℕ) → IsExact bytes → (HasOtherAdobe bytes → ⊥) →
        (headed : HasHeader bytes)
        × (HasSamples headed.number headed.header →
        (HasShiftedScan headed.after → ⊥) →
        IsWrittenForSamples (255 ∷ 216 ∷ headed.after)) }
{}
