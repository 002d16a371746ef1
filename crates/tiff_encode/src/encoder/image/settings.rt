//! Sets the properties of an open image, and its division into chunks.

ghost use Rattle.std.specs.Prelude.{◌≡◌, ◌+◌, ◌^◌, ◌<◌, ◌||◌, length, IfErr, MatchResult, OnErr, None, Some, nat_lt};
ghost use Rattle.tiff_value.specs.ColorType as color_type;
ghost use Rattle.tiff_value.specs.Data.{data_of, extras};
ghost use Rattle.tiff_encode.specs.Calls as calls;
ghost use Rattle.tiff_encode.specs.Causes as causes;
ghost use Rattle.tiff_encode.specs.Causes.{end_of, field_cause};
ghost use Rattle.tiff_encode.specs.Ends.{Ends};
ghost use Rattle.tiff_encode.specs.Leaves.{Leaves};
ghost use Rattle.tiff_value.specs.Model.{Model, FileContains};
ghost use Rattle.tiff_encode.specs.Placing.{Checks};
ghost use Rattle.tiff_encode.specs.Tagging.{StopsResolving, fields_of};

use crate::encoder::TiffEncoder;
use crate::encoder::directory::encoder::DirectoryEncoder;
use crate::encoder::directory::values::TagValue;
use crate::encoder::image::color::ImageColor;
use crate::encoder::image::state::{ChunkLayout, ImageState};
use crate::encoder::kind::{TiffKind, check_field};
use tiff_base::color::ChunkType;
use tiff_base::error::{TiffError, TiffResult, UsageError};
use tiff_base::io::{IoKind, Sink};
use tiff_base::tags::{ExtraSamples, FileKind, PlanarConfiguration, ResolutionUnit, Tag};
use tiff_value::encoder::horizontal_predictor::Sample;
use tiff_value::encoder::tiff_value::{Rational, Slice, TiffValue};

// ---- errors

impl<W: Sink, K: TiffKind> TiffEncoder<W, K> {
    // Returns the error of a field with these extra samples at the end of the file, if one applies.
    fn check_extras(&self, end: u64, extra: &[ExtraSamples]) -> TiffResult<()>
        requires { end ≡ end_of self.now }
        ensures { Checks (field_cause self.now (data_of (extras extra.now))) result }
    {
        let values = Slice(extra);
        check_field(self.file_kind(), end, values.count() as u64, values.bytes())?;
        Ok(())
    }

    // Returns the first error of `extra_samples` that applies before a byte is written.
    #[tactic(auto, using(crate::proofs::Calling::fresh_cause, crate::proofs::Calling::stopped_cause), unfolding(crate::specs::Causes::extra_samples_cause))]
    fn check_extra_samples<T: Sample>(
        &self,
        image: &ImageState<T>,
        extra: &[ExtraSamples],
    ) -> TiffResult<()>
        ensures { MatchResult result
            (λ _. (causes.extra_samples_cause self.now image.now extra.now ≡ None)
            × (length image.now.color.bits + length extra.now < 2 ^ 16))
            (λ e. causes.extra_samples_cause self.now image.now extra.now ≡ Some e) }
    {
        let _form = &image.form;
        let end = self.end()?;
        if image.is_begun() {
            return Err(TiffError::UsageError(UsageError::ReconfiguredAfterImageWrite));
        }
        if image.color.is_packed() {
            return Err(TiffError::IoError(IoKind::InvalidInput));
        }
        if is_past_samples(usize::from(image.color.samples()), extra.len()) {
            return Err(TiffError::IntSizeError);
        }
        self.check_extras(end, extra)
    }

    // Returns the first error of `rows_per_strip` that applies before a byte is written.
    #[tactic(auto, using(crate::proofs::Calling::fresh_cause, crate::proofs::Calling::stopped_cause), unfolding(crate::specs::Causes::rows_per_strip_cause))]
    fn check_rows_per_strip<T: Sample>(&self, image: &ImageState<T>, rows: u32) -> TiffResult<()>
        ensures { MatchResult result
            (λ _. (causes.rows_per_strip_cause self.now image.now rows ≡ None) × (0 < rows))
            (λ e. causes.rows_per_strip_cause self.now image.now rows ≡ Some e) }
    {
        self.end()?;
        if rows == 0 || image.is_begun() || image.form.chunk_type == ChunkType::Tile {
            return Err(TiffError::IoError(IoKind::InvalidInput));
        }
        Ok(())
    }

    // Returns the first error of `tiles` that applies before a byte is written.
    #[tactic(auto, using(crate::proofs::Calling::fresh_cause, crate::proofs::Calling::stopped_cause), unfolding(crate::specs::Causes::tiles_cause))]
    fn check_tiles<T: Sample>(
        &self,
        image: &ImageState<T>,
        width: u32,
        length: u32,
    ) -> TiffResult<()>
        ensures { MatchResult result
            (λ _. (causes.tiles_cause self.now image.now width length ≡ None) × (0 < width)
            × (0 < length))
            (λ e. causes.tiles_cause self.now image.now width length ≡ Some e) }
    {
        let _form = &image.form;
        self.end()?;
        if image.is_begun() {
            return Err(TiffError::UsageError(UsageError::ReconfiguredAfterImageWrite));
        }
        if is_no_tile(&image.color, width, length) {
            return Err(TiffError::IoError(IoKind::InvalidInput));
        }
        Ok(())
    }

    // Returns the first error of `planar` that applies before a byte is written.
    #[tactic(auto, using(crate::proofs::Calling::fresh_cause, crate::proofs::Calling::stopped_cause), unfolding(crate::specs::Causes::planar_cause))]
    fn check_planar<T: Sample>(&self, image: &ImageState<T>) -> TiffResult<()>
        ensures { Checks (causes.planar_cause self.now image.now) result }
    {
        self.end()?;
        if image.is_begun() {
            return Err(TiffError::UsageError(UsageError::ReconfiguredAfterImageWrite));
        }
        Ok(())
    }

    // Returns the first error of `resolution` that applies before a byte is written.
    #[tactic(auto, using(crate::proofs::Calling::fresh_cause, crate::proofs::Calling::stopped_cause), unfolding(crate::specs::Causes::resolution_cause))]
    fn check_resolution(&self) -> TiffResult<()>
        ensures { Checks (causes.resolution_cause self.now) result }
    {
        let end = self.end()?;
        if is_past_resolution(self.file_kind(), end) {
            return Err(TiffError::IntSizeError);
        }
        Ok(())
    }

    // Returns the first error of `x_resolution` and of `y_resolution` that applies before a byte is
    // written.
    #[tactic(auto, using(crate::proofs::Calling::fresh_cause, crate::proofs::Calling::stopped_cause, crate::proofs::Settings::rational_test), unfolding(crate::specs::Causes::one_resolution_cause))]
    fn check_one_resolution(&self) -> TiffResult<()>
        ensures { Checks (causes.one_resolution_cause self.now) result }
    {
        let end = self.end()?;
        check_field(self.file_kind(), end, 1, 8)
    }

    // Returns the first error of `resolution_unit` that applies before a byte is written.
    #[tactic(auto, using(crate::proofs::Calling::fresh_cause, crate::proofs::Calling::stopped_cause), unfolding(crate::specs::Causes::resolution_unit_cause))]
    fn check_resolution_unit(&self) -> TiffResult<()>
        ensures { Checks (causes.resolution_unit_cause self.now) result }
    {
        self.end()?;
        Ok(())
    }
}

// Returns whether a number can't be the width or the height of a tile, which is a multiple of 16
// and not 0.
fn is_no_side(n: u32) -> bool
    ensures { result ≡ causes.is_no_side n }
{
    n == 0 || n % 16 != 0
}

// Returns whether an image with such samples can't have tiles of a width and a length.
fn is_no_tile(color: &ImageColor, width: u32, length: u32) -> bool
    ensures { result ≡ (color_type.is_packed color.now || (causes.is_no_side width
        || causes.is_no_side length)) }
{
    color.is_packed() || is_no_side(width) || is_no_side(length)
}

// Returns whether a pixel would have more than 65535 samples.
fn is_past_samples(bits: usize, extra: usize) -> bool
    ensures { result ≡ nat_lt 65535 (bits + extra) }
{
    bits.saturating_add(extra) > usize::from(u16::MAX)
}

// Returns whether the second of two resolutions at the end of the file, without padding, would have
// an offset past what the kind of file can hold.
fn is_past_resolution(kind: FileKind, end: u64) -> bool
    ensures { result ≡ causes.is_past kind (end + 8) }
{
    match kind {
        FileKind::Classic => end > u64::from(u32::MAX) - 8,
        FileKind::Big => false,
    }
}

// ---- settings

impl<W: Sink, K: TiffKind> TiffEncoder<W, K> {
    // `extra_samples`
    fn set_extra_samples<T: Sample>(
        &mut self,
        image: &mut ImageState<T>,
        extra: &[ExtraSamples],
    ) -> TiffResult<()>
        ensures stays { OnErr result (image.new ≡ image.old) }
        ensures answer { Ends (λ _. image.new) (calls.extra_samples image.old extra.now self.old) result
            self.old self.new }
    {
        self.check_extra_samples(image, extra)?;
        let Ok(samples) = Vec::from_slice(self.alloc, extra) else {
            return Err(TiffError::OutOfMemory);
        };
        self.set_tag(&mut image.directory, Tag::ExtraSamples, &Slice(extra))?;
        image.extra = samples;
        Ok(())
    }

    // `rows_per_strip`
    fn set_rows_per_strip<T: Sample>(
        &mut self,
        image: &mut ImageState<T>,
        rows: u32,
    ) -> TiffResult<()>
        ensures stays { OnErr result (image.new ≡ image.old) }
        ensures answer { Ends (λ _. image.new) (calls.set_rows_per_strip image.old rows self.old) result
            self.old self.new }
    {
        self.check_rows_per_strip(image, rows)?;
        self.set_tag(&mut image.directory, Tag::RowsPerStrip, &rows)?;
        image.form = ChunkLayout {
            chunk_type: ChunkType::Strip,
            chunk_width: image.width,
            chunk_height: rows,
            planar: image.form.planar,
        };
        Ok(())
    }

    // `tiles`. The call sets the fields in a copy of the directory, and then replaces the directory
    // by the copy.
    fn set_tiles<T: Sample>(
        &mut self,
        image: &mut ImageState<T>,
        width: u32,
        length: u32,
    ) -> TiffResult<()>
        ensures stays { OnErr result (image.new ≡ image.old) }
        ensures answer { Ends (λ _. image.new) (calls.tiles image.old width length self.old) result self.old
            self.new }
    {
        self.check_tiles(image, width, length)?;
        // In a copy: after an error the directory has neither of the new sides.
        let mut fields = image.directory.copy(self.alloc)?;
        let sides = [
            TagValue::long(Tag::TileWidth, width),
            TagValue::long(Tag::TileLength, length),
        ];
        self.set_tags(&mut fields, &sides)?;
        fields.remove(Tag::RowsPerStrip);
        image.directory = fields;
        image.form = ChunkLayout {
            chunk_type: ChunkType::Tile,
            chunk_width: width,
            chunk_height: length,
            planar: image.form.planar,
        };
        Ok(())
    }

    // `planar`
    fn set_planar<T: Sample>(&mut self, image: &mut ImageState<T>) -> TiffResult<()>
        ensures stays { OnErr result (image.new ≡ image.old) }
        ensures answer { Ends (λ _. image.new) (calls.planar image.old self.old) result self.old self.new }
    {
        self.check_planar(image)?;
        self.set_tag(
            &mut image.directory,
            Tag::PlanarConfiguration,
            &PlanarConfiguration::Planar,
        )?;
        image.form.planar = PlanarConfiguration::Planar;
        Ok(())
    }

    // `resolution`. After an error the first of its tags can be set.
    fn set_resolution<T: Sample>(
        &mut self,
        image: &mut ImageState<T>,
        unit: ResolutionUnit,
        value: Rational,
    ) -> TiffResult<()>
        ensures part { IfErr result
            (λ e. StopsResolving image.old unit (value.n, value.d) e self.old self.new image.new) }
        ensures answer { Ends (λ _. image.new) (calls.resolution image.old unit (value.n, value.d) self.old)
            result self.old self.new }
    {
        self.check_resolution()?;
        let values = resolution_values(unit, value);
        self.set_tags(&mut image.directory, &values)?;
        Ok(())
    }

    // `x_resolution`
    fn set_x_resolution<T: Sample>(
        &mut self,
        image: &mut ImageState<T>,
        value: Rational,
    ) -> TiffResult<()>
        ensures stays { OnErr result (image.new ≡ image.old) }
        ensures answer { Ends (λ _. image.new) (calls.x_resolution image.old (value.n, value.d) self.old)
            result self.old self.new }
    {
        self.check_one_resolution()?;
        self.set_tag(&mut image.directory, Tag::XResolution, &value)?;
        Ok(())
    }

    // `y_resolution`
    fn set_y_resolution<T: Sample>(
        &mut self,
        image: &mut ImageState<T>,
        value: Rational,
    ) -> TiffResult<()>
        ensures stays { OnErr result (image.new ≡ image.old) }
        ensures answer { Ends (λ _. image.new) (calls.y_resolution image.old (value.n, value.d) self.old)
            result self.old self.new }
    {
        self.check_one_resolution()?;
        self.set_tag(&mut image.directory, Tag::YResolution, &value)?;
        Ok(())
    }

    // `resolution_unit`
    fn set_resolution_unit<T: Sample>(
        &mut self,
        image: &mut ImageState<T>,
        unit: ResolutionUnit,
    ) -> TiffResult<()>
        ensures stays { OnErr result (image.new ≡ image.old) }
        ensures answer { Ends (λ _. image.new) (calls.resolution_unit image.old unit self.old) result self.old
            self.new }
    {
        self.check_resolution_unit()?;
        self.set_tag(&mut image.directory, Tag::ResolutionUnit, &unit)?;
        Ok(())
    }
}

// Returns the tags of both resolutions and their unit, in the order in which they are written.
#[tactic(auto, unfolding(tiff_value::specs::Data::data_of))]
fn resolution_values(unit: ResolutionUnit, value: Rational) -> [TagValue; 3]
    ensures { result ≡ fields_of (calls.resolution_tags unit (value.n, value.d)) }
{
    [
        TagValue::short(Tag::ResolutionUnit, unit.to_u16()),
        TagValue::rational(Tag::XResolution, value.n, value.d),
        TagValue::rational(Tag::YResolution, value.n, value.d),
    ]
}

// ---- calls of an open image

impl<'a, W: Sink, K: TiffKind, T: Sample> DirectoryEncoder<'a, W, K, ImageState<T>> {
    /// Sets the meaning of the samples of a pixel that follow those of the color type, one item for
    /// each extra sample. The list replaces an earlier one. Each pixel that is written after the
    /// call has these samples too. Returns the first error that applies: `UsageError(WriterFailed)`
    /// if an earlier write to the sink failed; `UsageError(ReconfiguredAfterImageWrite)` if a chunk
    /// is in the file; `IoError(InvalidInput)` for packed pixels, which have none; `IntSizeError`
    /// if a pixel has more than 65535 samples in all, or if in a classic file the offset of the
    /// list exceeds 4 bytes. Otherwise `OutOfMemory` if an allocation fails, or the error of the
    /// sink, `IoError(Device)` or `OutOfMemory`.
    pub fn extra_samples(&mut self, extra: &[ExtraSamples]) -> TiffResult<()>
        ensures same_reference { self.new.encoder.ghost_name ≡ self.old.encoder.ghost_name }
        ensures stays { OnErr result (self.new.state ≡ self.old.state) }
        ensures answer { Ends (λ _. self.new.state)
            (calls.extra_samples self.old.state extra.now self.old.encoder.now) result
            self.old.encoder.now self.new.encoder.now }

        // Everything that the file contained before the call is still in it.
        ensures leaves { (m : Model) → FileContains self.old.encoder.now.kind self.old.encoder.now.bytes m
            → Leaves (calls.extra_samples self.old.state extra.now self.old.encoder.now) result
            self.old.encoder.now self.new.encoder.now m }
    {
        self.state.fact_fits();
        let answer = self.encoder.set_extra_samples(&mut self.state, extra);
        self.encoder.fact_fits();
        answer
    }

    /// Sets the number of rows of each strip; the last strip can have fewer. By default a strip has
    /// one row if it is compressed, and otherwise as many rows as make a million bytes. Returns the
    /// first error that applies: `UsageError(WriterFailed)` if an earlier write to the sink failed;
    /// `IoError(InvalidInput)` if `value` is 0, a chunk is in the file, or the image has tiles.
    /// Otherwise `OutOfMemory` if an allocation fails.
    pub fn rows_per_strip(&mut self, value: u32) -> TiffResult<()>
        ensures same_reference { self.new.encoder.ghost_name ≡ self.old.encoder.ghost_name }
        ensures stays { OnErr result (self.new.state ≡ self.old.state) }
        ensures answer { Ends (λ _. self.new.state)
            (calls.set_rows_per_strip self.old.state value self.old.encoder.now) result
            self.old.encoder.now self.new.encoder.now }

        // Everything that the file contained before the call is still in it.
        ensures leaves { (m : Model) → FileContains self.old.encoder.now.kind self.old.encoder.now.bytes m
            → Leaves (calls.set_rows_per_strip self.old.state value self.old.encoder.now) result
            self.old.encoder.now self.new.encoder.now m }
    {
        self.state.fact_fits();
        let answer = self.encoder.set_rows_per_strip(&mut self.state, value);
        self.encoder.fact_fits();
        answer
    }

    /// Divides the image into tiles of `width` columns and `length` rows, in place of strips or of
    /// tiles of another size. Returns the first error that applies: `UsageError(WriterFailed)` if
    /// an earlier write to the sink failed; `UsageError(ReconfiguredAfterImageWrite)` if a chunk is
    /// in the file; `IoError(InvalidInput)` if the width or the length is 0 or not a multiple of
    /// 16, and for packed pixels, which have strips alone. Otherwise `OutOfMemory` if an allocation
    /// fails.
    pub fn tiles(&mut self, width: u32, length: u32) -> TiffResult<()>
        ensures same_reference { self.new.encoder.ghost_name ≡ self.old.encoder.ghost_name }
        ensures stays { OnErr result (self.new.state ≡ self.old.state) }
        ensures answer { Ends (λ _. self.new.state)
            (calls.tiles self.old.state width length self.old.encoder.now) result
            self.old.encoder.now self.new.encoder.now }

        // Everything that the file contained before the call is still in it.
        ensures leaves { (m : Model) → FileContains self.old.encoder.now.kind self.old.encoder.now.bytes m
            → Leaves (calls.tiles self.old.state width length self.old.encoder.now) result
            self.old.encoder.now self.new.encoder.now m }
    {
        self.state.fact_fits();
        let answer = self.encoder.set_tiles(&mut self.state, width, length);
        self.encoder.fact_fits();
        answer
    }

    /// Makes each chunk contain the samples of one plane. All chunks of a plane come before those
    /// of the next plane. Returns the first error that applies: `UsageError(WriterFailed)` if an
    /// earlier write to the sink failed; `UsageError(ReconfiguredAfterImageWrite)` if a chunk is in
    /// the file. Otherwise `OutOfMemory` if an allocation fails.
    pub fn planar(&mut self) -> TiffResult<()>
        ensures same_reference { self.new.encoder.ghost_name ≡ self.old.encoder.ghost_name }
        ensures stays { OnErr result (self.new.state ≡ self.old.state) }
        ensures answer { Ends (λ _. self.new.state) (calls.planar self.old.state self.old.encoder.now) result
            self.old.encoder.now self.new.encoder.now }

        // Everything that the file contained before the call is still in it.
        ensures leaves { (m : Model) → FileContains self.old.encoder.now.kind self.old.encoder.now.bytes m
            → Leaves (calls.planar self.old.state self.old.encoder.now) result self.old.encoder.now
            self.new.encoder.now m }
    {
        self.state.fact_fits();
        let answer = self.encoder.set_planar(&mut self.state);
        self.encoder.fact_fits();
        answer
    }

    /// Sets the number of pixels per unit, in both directions, and the unit. Returns the first
    /// error that applies: `UsageError(WriterFailed)` if an earlier write to the sink failed;
    /// `IntSizeError` if in a classic file an offset exceeds 4 bytes. Otherwise `OutOfMemory` if an
    /// allocation fails, or the error of the sink, `IoError(Device)` or `OutOfMemory`; after one of
    /// these the first of the three tags can be set, in the order `ResolutionUnit`, `XResolution`,
    /// `YResolution`.
    pub fn resolution(&mut self, unit: ResolutionUnit, value: Rational) -> TiffResult<()>
        ensures same_reference { self.new.encoder.ghost_name ≡ self.old.encoder.ghost_name }
        ensures part { IfErr result
            (λ e. StopsResolving self.old.state unit (value.n, value.d) e self.old.encoder.now
            self.new.encoder.now self.new.state) }
        ensures answer { Ends (λ _. self.new.state) (calls.resolution self.old.state unit (value.n, value.d)
            self.old.encoder.now) result self.old.encoder.now self.new.encoder.now }

        // Everything that the file contained before the call is still in it.
        ensures leaves { (m : Model) → FileContains self.old.encoder.now.kind self.old.encoder.now.bytes m
            → Leaves (calls.resolution self.old.state unit (value.n, value.d) self.old.encoder.now)
            result self.old.encoder.now self.new.encoder.now m }
    {
        self.state.fact_fits();
        let answer = self.encoder.set_resolution(&mut self.state, unit, value);
        self.encoder.fact_fits();
        answer
    }

    /// Sets the number of pixels per unit in the horizontal direction. Returns the first error that
    /// applies: `UsageError(WriterFailed)` if an earlier write to the sink failed; `IntSizeError`
    /// if in a classic file an offset exceeds 4 bytes. Otherwise `OutOfMemory` if an allocation
    /// fails, or the error of the sink, `IoError(Device)` or `OutOfMemory`.
    pub fn x_resolution(&mut self, value: Rational) -> TiffResult<()>
        ensures same_reference { self.new.encoder.ghost_name ≡ self.old.encoder.ghost_name }
        ensures stays { OnErr result (self.new.state ≡ self.old.state) }
        ensures answer { Ends (λ _. self.new.state)
            (calls.x_resolution self.old.state (value.n, value.d) self.old.encoder.now)
            result self.old.encoder.now self.new.encoder.now }

        // Everything that the file contained before the call is still in it.
        ensures leaves { (m : Model) → FileContains self.old.encoder.now.kind self.old.encoder.now.bytes m
            → Leaves (calls.x_resolution self.old.state (value.n, value.d) self.old.encoder.now)
            result self.old.encoder.now self.new.encoder.now m }
    {
        self.state.fact_fits();
        let answer = self.encoder.set_x_resolution(&mut self.state, value);
        self.encoder.fact_fits();
        answer
    }

    /// Sets the number of pixels per unit in the vertical direction. Returns the first error that
    /// applies: `UsageError(WriterFailed)` if an earlier write to the sink failed; `IntSizeError`
    /// if in a classic file an offset exceeds 4 bytes. Otherwise `OutOfMemory` if an allocation
    /// fails, or the error of the sink, `IoError(Device)` or `OutOfMemory`.
    pub fn y_resolution(&mut self, value: Rational) -> TiffResult<()>
        ensures same_reference { self.new.encoder.ghost_name ≡ self.old.encoder.ghost_name }
        ensures stays { OnErr result (self.new.state ≡ self.old.state) }
        ensures answer { Ends (λ _. self.new.state)
            (calls.y_resolution self.old.state (value.n, value.d) self.old.encoder.now)
            result self.old.encoder.now self.new.encoder.now }

        // Everything that the file contained before the call is still in it.
        ensures leaves { (m : Model) → FileContains self.old.encoder.now.kind self.old.encoder.now.bytes m
            → Leaves (calls.y_resolution self.old.state (value.n, value.d) self.old.encoder.now)
            result self.old.encoder.now self.new.encoder.now m }
    {
        self.state.fact_fits();
        let answer = self.encoder.set_y_resolution(&mut self.state, value);
        self.encoder.fact_fits();
        answer
    }

    /// Sets the unit of the resolutions. Errors: `UsageError(WriterFailed)` if an earlier write to
    /// the sink failed, otherwise `OutOfMemory` if an allocation fails.
    pub fn resolution_unit(&mut self, unit: ResolutionUnit) -> TiffResult<()>
        ensures same_reference { self.new.encoder.ghost_name ≡ self.old.encoder.ghost_name }
        ensures stays { OnErr result (self.new.state ≡ self.old.state) }
        ensures answer { Ends (λ _. self.new.state)
            (calls.resolution_unit self.old.state unit self.old.encoder.now) result
            self.old.encoder.now self.new.encoder.now }

        // Everything that the file contained before the call is still in it.
        ensures leaves { (m : Model) → FileContains self.old.encoder.now.kind self.old.encoder.now.bytes m
            → Leaves (calls.resolution_unit self.old.state unit self.old.encoder.now) result
            self.old.encoder.now self.new.encoder.now m }
    {
        self.state.fact_fits();
        let answer = self.encoder.set_resolution_unit(&mut self.state, unit);
        self.encoder.fact_fits();
        answer
    }
}
