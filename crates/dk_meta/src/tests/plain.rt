//! A plain reader of trees and pages: whether they are lawful, or the place of the first fault.

/// A place in a byte string.
#[derive(Drop)]
struct Plain<'a> {
    bytes: &'a [u8],
    at: usize,
}

impl<'a> Plain<'a> {
    /// The number of so many bytes, which lies between these two.
    fn number(&mut self, size: usize, least: u64, most: u64) -> Result<u64, u64> {
        let mut number = 0u64;
        for i in (0..size).rev() {
            match self.bytes.get(self.at.wrapping_add(i)) {
                Some(byte) => number = number.wrapping_mul(256).wrapping_add(u64::from(*byte)),
                None => return Err(self.at as u64),
            }
        }
        if number < least || number > most {
            return Err(self.at as u64);
        }
        self.at = self.at.wrapping_add(size);
        Ok(number)
    }

    fn name(&mut self) -> Result<&'a [u8], u64> {
        let len = self.number(1, 1, 63)? as usize;
        let end = self.at.wrapping_add(len);
        if end < self.at || end > self.bytes.len() {
            return Err(self.at as u64);
        }
        let name = &self.bytes[self.at..end];
        self.at = end;
        Ok(name)
    }

    /// A name that none has of those that stand at these places.
    fn new_name(&mut self, places: &[usize]) -> Result<(), u64> {
        let at = self.at;
        let name = self.name()?;
        for place in places {
            let mut other = Plain {
                bytes: self.bytes,
                at: *place,
            };
            if other.name()? == name {
                return Err(at as u64);
            }
        }
        Ok(())
    }

    fn table(&mut self) -> Result<(), u64> {
        let columns = self.number(2, 1, 64)?;
        let mut places = [0usize; 64];
        for i in 0..columns as usize {
            self.number(1, 0, 3)?;
            let at = self.at;
            self.new_name(places.get(..i).unwrap_or(&[]))?;
            if let Some(place) = places.get_mut(i) {
                *place = at;
            }
        }
        for _ in 0..self.number(8, 0, u64::MAX)? {
            self.number(8, 0, u64::MAX)?;
            self.number(4, 0, u64::MAX)?;
        }
        Ok(())
    }

    fn tables(&mut self) -> Result<(), u64> {
        let tables = self.number(2, 0, 64)?;
        let mut places = [0usize; 64];
        for i in 0..tables as usize {
            let at = self.at;
            self.new_name(places.get(..i).unwrap_or(&[]))?;
            if let Some(place) = places.get_mut(i) {
                *place = at;
            }
            self.table()?;
        }
        Ok(())
    }

    /// The rows of the segment that stands next.
    fn segment(&mut self) -> Result<u64, u64> {
        self.number(8, 0, u64::MAX)?;
        let offset = self.number(4, 0, u64::MAX)?;
        let at = self.at;
        let bytes = self.number(4, 0, u64::MAX)?;
        if offset.wrapping_add(bytes) > 262_136 {
            return Err(at as u64);
        }
        self.number(2, 1, u64::MAX)
    }

    fn vector(&mut self, rows: u64) -> Result<(), u64> {
        let mut sum = 0u64;
        for _ in 0..self.number(2, 1, 2048)? {
            sum = sum.wrapping_add(self.segment()?);
        }
        if sum == rows {
            Ok(())
        } else {
            Err(self.at.wrapping_sub(2) as u64)
        }
    }

    fn page(&mut self, columns: u16) -> Result<(), u64> {
        let rows = self.number(4, 1, 122_880)?;
        self.number(2, u64::from(columns), u64::from(columns))?;
        let mut least = 0;
        for _ in 0..self.number(4, 0, u64::MAX)? {
            least = self.number(4, least, rows.wrapping_sub(1))?.wrapping_add(1);
        }
        for _ in 0..columns {
            let mut left = rows;
            for _ in 0..rows.div_ceil(2048) {
                self.vector(left.min(2048))?;
                left = left.saturating_sub(2048);
            }
        }
        Ok(())
    }

    fn end(&self) -> Result<(), u64> {
        if self.at < self.bytes.len() {
            return Err(self.at as u64);
        }
        Ok(())
    }
}

pub(super) fn tree(bytes: &[u8]) -> Result<(), u64> {
    let mut plain = Plain { bytes, at: 0 };
    plain.tables()?;
    plain.end()
}

pub(super) fn page(bytes: &[u8], columns: u16) -> Result<(), u64> {
    let mut plain = Plain { bytes, at: 0 };
    plain.page(columns)?;
    plain.end()
}
