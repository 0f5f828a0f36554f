//! The extremes of what a writer may send of 8-bit samples, so that no premise of the laws on
//! written streams is narrower than it says.
ghost use Rattle.std.specs.Prelude.{ℕ, List};
ghost use Rattle.jpeg_bits.specs.declared.color_transform.ColorTransform.TheVariants as transforms;
ghost use Rattle.jpeg_segments.specs.WrittenSegments.{Interval};
ghost use Rattle.jpeg_meaning.specs.ArrayPictures.{IsTransformOf};
ghost use Rattle.jpeg_meaning.specs.DecodedImages.{FullSize, HasLeft};
ghost use Rattle.jpeg_meaning.specs.Found.{Found, Said};
ghost use Rattle.jpeg_meaning.specs.Levels.{Is8Bit};
ghost use Rattle.jpeg_meaning.specs.WorkedImages.{IsWhollyWritten};
ghost use Rattle.jpeg_meaning.specs.WrittenImages.{MayStandInImage};
ghost use Rattle.jpeg_meaning.specs.declared.progress.Progress.TheVariants.{Fresh};
ghost use Rattle.jpeg_evidence.specs.Extremes.{extreme_array, extreme_progressive};
ghost use Rattle.jpeg_evidence.specs.Extremes.{extreme_sequential};

/// Coefficients may be as great as 8-bit samples make them (T.81, F.1.2.1 and F.1.2.2): DC from
/// -1024 to 1023 and AC from -1023 to 1023. A stream that has both ends of both is written in one
/// sequential scan, and in a progressive frame with DC and an AC coefficient first at level 7, and
/// with a restart interval that changes between scans.
pub fn extremes_are_written()
    ensures range { (index row column : ℕ) → Is8Bit (extreme_array index row column) }
    ensures sequential { IsWhollyWritten extreme_array extreme_sequential }
    ensures progressive { IsWhollyWritten extreme_array extreme_progressive }
{}

/// What a premise asks for is there: a fresh decoder has all of its source left, a restart interval
/// may be set anywhere in an image, and a picture of any number of components may be left without a
/// colour transform.
pub fn premises_are_met()
    ensures fresh { (bytes : List ℕ) (found : Found) → HasLeft FullSize bytes Fresh found bytes }
    ensures interval { (said : Said) (n : ℕ) → MayStandInImage said (Interval n) }
    ensures untransformed { (count : ℕ) → IsTransformOf count transforms.None }
{}
