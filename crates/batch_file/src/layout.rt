// How a batch lies on its pages.
ghost use Rattle.std.specs.Prelude.{◌≡◌, ◌≢◌, ◌⊎◌, ◌+◌, ◌*◌, ◌%◌, ◌<◌, ◌≤◌, ℕ, Some, true, slice_index};
ghost use Rattle.batch_file.specs.Layout.{number_at, address_in, is_place, is_head};

use disk_model::{Addr, Page};

pub const GATE: Addr = Addr { file: 1, page: 0 };

pub const HEAD: Addr = Addr { file: 2, page: 0 };

pub const MAGIC: [u8; 8] = *b"BATCH7  ";

/// Four bytes of a page as a number, the lowest first.
pub fn number(page: &Page, at: usize) -> u32
    requires { at + 4 ≤ 1024 }
    ensures { result ≡ number_at page.now at }
{
    u32::from_le_bytes([page[at], page[at + 1], page[at + 2], page[at + 3]])
}

/// Puts a number into four bytes of a page.
fn put_number(page: &mut Page, at: usize, n: u32)
    requires { at + 4 ≤ 1024 }
    ensures there { number_at page.new at ≡ n }
    ensures others { (i : ℕ) → (i < at) ⊎ (at + 4 ≤ i) → slice_index page.new i ≡ slice_index page.old i }
{
    let bytes = n.to_le_bytes();
    page[at] = bytes[0];
    page[at + 1] = bytes[1];
    page[at + 2] = bytes[2];
    page[at + 3] = bytes[3];
}

/// Address `k`, on its page of addresses.
pub fn address(page: &Page, k: u32) -> Addr
    ensures { result ≡ address_in page.now k }
{
    let at = 8 * (k % 128) as usize;
    Addr {
        file: number(page, at),
        page: number(page, at + 4),
    }
}

/// Puts address `k` on its page of addresses.
pub fn put_address(page: &mut Page, k: u32, a: Addr)
    ensures there { address_in page.new k ≡ a }
    ensures others { (j : ℕ) → j % 128 ≢ k % 128 → address_in page.new j ≡ address_in page.old j }
{
    let at = 8 * (k % 128) as usize;
    put_number(page, at, a.file);
    put_number(page, at + 4, a.page);
}

/// Whether a batch may name a page.
pub fn may_name(a: Addr) -> bool
    ensures { result ≡ is_place a }
{
    (a.file == 0 && a.page == 0) || a.file >= 5
}

/// The head of a batch.
pub fn head_page(count: u32) -> Page
    requires { 0 < count }
    ensures head { is_head (Some result) ≡ true }
    ensures count { number_at result 8 ≡ count }
{
    let mut head = [0; 1024];
    put_number(&mut head, 8, count);
    head[..8].copy_from_slice(&MAGIC);
    head
}
