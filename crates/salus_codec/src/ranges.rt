ghost use Rattle.std.specs.Prelude.{Ok};
ghost use Rattle.salus_types.specs.Outcome.{Gives};
ghost use Rattle.salus_codec.specs.Reading.{field_fault, u8_at, u16_at, u32_at};
ghost use Rattle.salus_codec.specs.Formats.{within};
ghost use Rattle.salus_codec.specs.Spelling.{IsBytes};

use crate::errors::FieldError;
use crate::reader::Fields;

impl<'a> Fields<'a> {
    /// The next byte, from `low` to `high`; outside it is `Count`, and the byte is passed.
    pub fn u8_within(&mut self, low: u8, high: u8) -> Result<u8, FieldError>
        ensures exact { Gives (λ x. Ok (x, self.new)) field_fault result (within low high u8_at self.old) }
        ensures fits { IsBytes self.old }
    {
        let number = self.u8()?;
        if number < low || high < number {
            return Err(FieldError::Count);
        }
        Ok(number)
    }

    /// The number in the next two bytes, from `low` to `high`; outside it is `Count`, and the bytes are passed.
    pub fn u16_within(&mut self, low: u16, high: u16) -> Result<u16, FieldError>
        ensures { Gives (λ x. Ok (x, self.new)) field_fault result (within low high u16_at self.old) }
    {
        let number = self.u16()?;
        if number < low || high < number {
            return Err(FieldError::Count);
        }
        Ok(number)
    }

    /// The number in the next four bytes, from `low` to `high`; outside it is `Count`, and the bytes are passed.
    pub fn u32_within(&mut self, low: u32, high: u32) -> Result<u32, FieldError>
        ensures { Gives (λ x. Ok (x, self.new)) field_fault result (within low high u32_at self.old) }
    {
        let number = self.u32()?;
        if number < low || high < number {
            return Err(FieldError::Count);
        }
        Ok(number)
    }
}
