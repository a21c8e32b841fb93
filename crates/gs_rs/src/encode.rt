// The parity of a block, several rows at a time.
ghost use Rattle.std.specs.Prelude.{◌≡◌, ℕ, ◌+◌, ◌*◌, ◌<◌, ◌≤◌, ◌++◌, length, slice_index, All};
ghost use Rattle.gs_gf256.specs.Field.{product, field_sum};
ghost use Rattle.gs_gf256.specs.Table.{times, table_at};
ghost use Rattle.gs_rs.specs.Shape.{IsCode, coefficient};
ghost use Rattle.gs_rs.specs.Codeword.{IsBlock, shard_of};
ghost use Rattle.gs_rs.specs.GroupRows.{RowsMade, row_value, HasRows};

use crate::code::Code;
use crate::group::{FEW_SHARDS, GROUP_LEN, MOST_ROWS, write_tables};
use crate::limits::MAX_SHARDS;
use crate::shape::CodeShape;
use gs_gf256::{BLOCK_LEN, mul_add, sum_four, sum_two, write_block};

impl Code {
    /// Writes the parity shards of a block. `source` is its data shards, each of `len` bytes, in order.
    pub fn encode(&self, len: usize, source: &[u8], parity: &mut [u8])
        requires source_size { length source.now ≡ self.now.data * len }
        requires parity_size { length parity.old ≡ self.now.parity * len }
        ensures { IsBlock self.now len (source.now ++ parity.new) }
    {
        self.shape().encode_rows(len, source, parity);
    }
}

impl CodeShape {
    /// Writes each parity shard: four at once, two at once, and the last one, or short ones, alone.
    fn encode_rows(&self, len: usize, source: &[u8], parity: &mut [u8])
        requires code { IsCode self.now }
        requires source_size { length source.now ≡ self.now.data * len }
        requires parity_size { length parity.old ≡ self.now.parity * len }
        ensures { HasRows self.now len source.now parity.new self.now.parity }
    {
        let made = self.encode_groups(len, source, parity);
        for row in made..self.parity {
            self.encode_row(len, source, row, &mut parity[row * len..row * len + len]);
        }
    }

    /// Writes groups of parity shards from the first on, and answers how many shards.
    fn encode_groups(&self, len: usize, source: &[u8], parity: &mut [u8]) -> usize
        requires code { IsCode self.now }
        requires source_size { length source.now ≡ self.now.data * len }
        requires parity_size { length parity.old ≡ self.now.parity * len }
        ensures within { result ≤ self.now.parity }
        ensures made { HasRows self.now len source.now parity.new result }
    {
        if len < BLOCK_LEN {
            return 0;
        }
        if self.data <= FEW_SHARDS {
            self.encode_groups_by(len, source, parity, &mut [0; FEW_SHARDS * GROUP_LEN])
        } else {
            self.encode_groups_by(len, source, parity, &mut [0; MAX_SHARDS * GROUP_LEN])
        }
    }

    /// The same, with room for the tables of a group.
    fn encode_groups_by(
        &self,
        len: usize,
        source: &[u8],
        parity: &mut [u8],
        tables: &mut [u8],
    ) -> usize
        requires code { IsCode self.now }
        requires source_size { length source.now ≡ self.now.data * len }
        requires parity_size { length parity.old ≡ self.now.parity * len }
        requires block { BLOCK_LEN ≤ len }
        requires tables_size { self.now.data * GROUP_LEN ≤ length tables.old }
        ensures within { result ≤ self.now.parity }
        ensures made { HasRows self.now len source.now parity.new result }
    {
        let numbers = first_numbers(self.data);
        let numbers = &numbers[..self.data];
        let mut row = 0;
        while self.parity - row >= 4 {
            self.row_tables(tables, 4, row);
            encode_four(len, source, numbers, row, parity, tables);
            row += 4;
        }
        if self.parity - row >= 2 {
            self.row_tables(tables, 2, row);
            encode_two(len, source, numbers, row, parity, tables);
            row += 2;
        }
        row
    }

    /// Writes the tables of the factors of so many parity shards, from one on.
    fn row_tables(&self, tables: &mut [u8], rows: usize, first: usize)
        requires code { IsCode self.now }
        requires few_rows { rows ≤ MOST_ROWS }
        requires rows_in { first + rows ≤ self.now.parity }
        requires room { self.now.data * GROUP_LEN ≤ length tables.old }
        ensures { (r i x : ℕ) → r < rows → i < self.now.data → x < 256
            → times tables.new (table_at rows i r) x ≡ product (coefficient self.now (first + r) i) x }
    {
        for row in 0..rows {
            write_tables(
                tables,
                rows,
                row,
                &self.coefficients(first + row),
                self.data,
            );
        }
    }

    /// The factors that the data shards have in a parity shard.
    fn coefficients(&self, row: usize) -> [u8; MAX_SHARDS]
        requires code { IsCode self.now }
        requires row_in { row < self.now.parity }
        ensures { (i : ℕ) → i < self.now.data → slice_index result i ≡ coefficient self.now row i }
    {
        let mut factors = [0; MAX_SHARDS];
        for i in 0..self.data {
            factors[i] = self.coefficient(row, i);
        }
        factors
    }

    /// Writes one parity shard: the sum of the data shards, each times its coefficient.
    fn encode_row(&self, len: usize, source: &[u8], row: usize, out: &mut [u8])
        requires code { IsCode self.now }
        requires row_in { row < self.now.parity }
        requires source_size { length source.now ≡ self.now.data * len }
        requires out_size { length out.old ≡ len }
        ensures { (k : ℕ) → k < len
            → slice_index out.new k
            ≡ field_sum
            (λ i. product (coefficient self.now row i) (slice_index source.now (i * len + k)))
            self.now.data }
    {
        out.fill(0);
        for i in 0..self.data {
            mul_add(out, shard(source, len, i), self.coefficient(row, i));
        }
    }
}

/// The numbers of the first shards, in order.
fn first_numbers(count: usize) -> [u8; MAX_SHARDS]
    requires { count ≤ MAX_SHARDS }
    ensures { (i : ℕ) → i < count → slice_index result i ≡ i }
{
    let mut numbers = [0; MAX_SHARDS];
    for i in 0..count {
        numbers[i] = i as u8;
    }
    numbers
}

/// Writes two parity shards from `row` on, block by block. The last block ends with the shards.
fn encode_two(
    len: usize,
    source: &[u8],
    numbers: &[u8],
    row: usize,
    parity: &mut [u8],
    tables: &[u8],
)
    requires block { BLOCK_LEN ≤ len }
    requires numbers_in { All (λ number. number * len + len ≤ length source.now) numbers.now }
    requires parity_in { row * len + 2 * len ≤ length parity.old }
    requires tables_size { length numbers.now * 64 ≤ length tables.now }
    ensures { RowsMade 2 len (λ r. (row + r) * len) (row_value source.now len numbers.now tables.now 2)
        0 0 len parity.old parity.new }
{
    for block in 0..len.div_ceil(BLOCK_LEN) {
        let at = usize::min(block * BLOCK_LEN, len - BLOCK_LEN);
        let (first, second) = sum_two(source, len, numbers, at, tables);
        write_block(parity, row * len + at, first);
        write_block(parity, (row + 1) * len + at, second);
    }
}

/// Writes four parity shards from `row` on, block by block. The last block ends with the shards.
fn encode_four(
    len: usize,
    source: &[u8],
    numbers: &[u8],
    row: usize,
    parity: &mut [u8],
    tables: &[u8],
)
    requires block { BLOCK_LEN ≤ len }
    requires numbers_in { All (λ number. number * len + len ≤ length source.now) numbers.now }
    requires parity_in { row * len + 4 * len ≤ length parity.old }
    requires tables_size { length numbers.now * 128 ≤ length tables.now }
    ensures { RowsMade 4 len (λ r. (row + r) * len) (row_value source.now len numbers.now tables.now 4)
        0 0 len parity.old parity.new }
{
    for block in 0..len.div_ceil(BLOCK_LEN) {
        let at = usize::min(block * BLOCK_LEN, len - BLOCK_LEN);
        let (first, second, third, fourth) = sum_four(source, len, numbers, at, tables);
        write_block(parity, row * len + at, first);
        write_block(parity, (row + 1) * len + at, second);
        write_block(parity, (row + 2) * len + at, third);
        write_block(parity, (row + 3) * len + at, fourth);
    }
}

/// One shard of those laid end to end.
pub(crate) fn shard(shards: &[u8], len: usize, number: usize) -> &[u8]
    requires { number * len + len ≤ length shards.now }
    ensures shard { result.now ≡ shard_of len shards.now number }
    ensures size { length result.now ≡ len }
{
    &shards[number * len..number * len + len]
}
