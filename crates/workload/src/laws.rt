ghost use Rattle.std.specs.Prelude.{◌≡◌, ◌<◌, ◌^◌, ℕ, List, length, Ok};
ghost use Rattle.workload.specs.Meaning.{IsReading, IsWhole};
ghost use Rattle.workload.specs.Plain.{IsPlain};
ghost use Rattle.workload.specs.Reading.{reading};
ghost use Rattle.workload.specs.Spelling.{spelling};
ghost use Rattle.workload.specs.WorkView.{WorkView};

/// What is printed of a plain workload is read as that workload, and no text of a workload is too long to be read.
pub fn printed_is_read()
    ensures same { (w : WorkView) → IsPlain w → IsWhole w → reading (spelling w) ≡ Ok w }
    ensures short { (text : List ℕ) (w : WorkView) → IsReading text w → length text < 2 ^ 32 }
{}
