// SLU images and limits: refusals 1 to 4, and the layout of an image that is not refused.
#![tactic(auto)]

mod access;
mod areas;
mod header;
mod lengths;
mod measured;
mod parts;

ghost use Rattle.std.specs.Prelude.{◌≡◌, ℕ, IfOk};
ghost use Rattle.image.specs.Lengths.{Begins};
ghost use Rattle.image.specs.Measured.{measured_answer};
ghost use Rattle.image.specs.Validated.{Valid, error_number, answer_of, numbered_answer};
ghost use Rattle.image.specs.Validation.{laid_out, validated, validation_number};

pub use access::granted;
pub use areas::{apart, limits_of};
pub use header::{base_of, code_at, count_of, version_of};
pub use lengths::{LengthState, begin_at};
pub use measured::Measured;
pub use parts::parts_check;

// Addresses from low to high, both included.
#[derive(Clone, Copy)]
pub struct Area {
    pub low: u16,
    pub high: u16,
}

// Where a gate routine may store directly, and its stack. A second grant whose low is above its high is none.
#[derive(Clone, Copy)]
pub struct Limits {
    pub grant: Area,
    pub stack: Area,
    pub second: Area,
}

// The version, the base address, the number of routines, the index of the first code byte in the image, and the number of code bytes.
#[derive(Clone, Copy)]
pub struct Layout {
    pub version: u16,
    pub base: u16,
    pub count: usize,
    pub code: usize,
    pub size: usize,
}

// Whose rule is broken: that of the limits, of the mark, of the version, or another one of the layout; with document 01's numbers.
#[derive(Clone, Copy, Debug, PartialEq, Eq)]
pub enum ImageError {
    Limits = 1,
    Mark = 2,
    Version = 3,
    Layout = 4,
}

impl ImageError {
    // Document 01's number.
    pub fn number(self) -> u8
        ensures { result ≡ error_number self }
    {
        self as u8
    }
}

/// What has one of document 01's numbers: an error by its name, and a number as it is.
pub trait Numbered {
    ghost number_of: { Self → ℕ };

    fn as_number(self) -> u8
        ensures { result ≡ number_of self };
}

impl Numbered for ImageError {
    ghost number_of = { error_number };

    fn as_number(self) -> u8 {
        self.number()
    }
}

impl Numbered for u8 {
    ghost number_of = { λ number. number };

    fn as_number(self) -> u8 {
        self
    }
}

// The layout of an image under limits, and where its routines begin; or the first rule that is broken, in document 01's order.
#[tactic(auto, using(crate::proofs::Alone::laid_under), unfolding(crate::specs::Validation::validated, crate::specs::Validation::refusal, numbers::specs::Folds::first_in, numbers::specs::Checks::first))]
pub fn measure(image: &[u8], limits: Limits) -> Result<Measured, ImageError>
    ensures answer { measured_answer result ≡ validated image.now limits }
    ensures alone { IfOk result (λ measured. laid_out image.now ≡ Valid measured.layout) }
    ensures begins { IfOk result (λ measured. Begins image.now measured.begins measured.layout.count) }
{
    areas::limits_check(limits)?;
    measure_alone(image)
}

// The same for an image by itself, with no limits.
#[tactic(auto, using(numbers::proofs::Folding::first_none), unfolding(crate::specs::Validation::laid_out, crate::specs::Validation::image_check, numbers::specs::Folds::first_in, numbers::specs::Checks::first))]
pub fn measure_alone(image: &[u8]) -> Result<Measured, ImageError>
    ensures answer { measured_answer result ≡ laid_out image.now }
    ensures alone { IfOk result (λ measured. laid_out image.now ≡ Valid measured.layout) }
    ensures begins { IfOk result (λ measured. Begins image.now measured.begins measured.layout.count) }
{
    header::mark_check(image)?;
    header::version_check(image)?;
    let (lengths, begins) = header::read_lengths(image);
    let layout = header::layout_check(image, lengths)?;
    Ok(Measured { layout, begins })
}

// The layout alone.
pub fn validate(image: &[u8], limits: Limits) -> Result<Layout, ImageError>
    ensures { answer_of result ≡ validated image.now limits }
{
    Ok(measure(image, limits)?.layout)
}

// Document 01's number of an answer, 0 where nothing is refused.
pub fn validation_number<E: Numbered>(validated: Result<Layout, E>) -> u8
    ensures { result ≡ validation_number (numbered_answer E.number_of validated) }
{
    match validated {
        Ok(_) => 0,
        Err(error) => error.as_number(),
    }
}
