//! The search for an isomorphism by the images of the first elements.
ghost use Rattle.std.specs.Prelude.{◌≡◌, ◌<◌, ◌≤◌, ◌+◌, ◌-◌, ◌++◌, ◌∷◌, [], ℕ, List, IfOk, IsTrue, false, All, length, slice_index, slice_index_or};
ghost use Rattle.misere_theory.specs.Certificates.{IsHeapOf, claim_of, key_of, phi_at};
ghost use Rattle.compact_certificates.specs.Rows.{firsts_of};
ghost use Rattle.isomorphisms.specs.Profiles.{AreKept};
ghost use Rattle.isomorphisms.specs.Images.{IsLeftOut, IsNextImage, MustTake, Searches};

use crate::checking::is_map;
use crate::forcing::forced;
use allocation::Memory;
use answers::Certified;
use certificate::Key;
use compact_certificates::accepted_certificates_follow;
use std::alloc::Allocator;

/// What a search finds: an image of each element, or that there is no isomorphism, or nothing within
/// its units.
#[derive(Drop)]
pub enum MapSearch<B: Allocator> {
    Map(Vec<u16, B>),
    Nothing,
    Long,
}

/// How many keys have the element 0 before the first that has another.
fn first_keys(words: &[Key]) -> usize
    ensures value { result ≡ firsts_of words.now }
    ensures within { result ≤ length words.now }
{
    for i in 0..words.len() {
        let key = words[i];
        if key.element != 0 {
            return i;
        }
    }
    words.len()
}

/// How many elements the heaps have, without 0: they are the numbers from 1 on.
fn firsts<A: Allocator>(a: &Certified<A>) -> usize
    ensures value { result ≡ firsts_of a.now.words }
    ensures within { result < a.now.order }
{
    let _ = a.cert().order();
    first_keys(a.cert().words())
}

/// The element and the heap of the key of e.
fn key_in(words: &[Key], e: u16) -> (u16, u64)
    requires some { 0 < e }
    requires e_in { e ≤ length words.now }
    ensures element { result.0 ≡ (slice_index_or words.now (e - 1) (0, 0)).0 }
    ensures heap { result.1 ≡ (slice_index_or words.now (e - 1) (0, 0)).1 }
{
    let at = e as usize - 1;
    let key = words[at];
    (key.element, key.heap as u64)
}

/// The element and the heap whose product is e.
fn key_at<A: Allocator>(a: &Certified<A>, e: u16) -> (u16, u64)
    requires some { 0 < e }
    requires e_in { e < a.now.order }
    ensures element { result.0 ≡ (key_of a.now e).0 }
    ensures heap { result.1 ≡ (key_of a.now e).1 }
    ensures smaller { result.0 < e }
    ensures counts { IsHeapOf a.now result.1 }
{
    let cert = a.cert();
    let _ = cert.order();
    key_in(cert.words(), e)
}

/// The element of the heap, which is 0 or a first one.
fn heap_element<A: Allocator>(a: &Certified<A>, heap: u64) -> u16
    requires { IsHeapOf a.now heap }
    ensures value { result ≡ phi_at a.now heap }
    ensures within { result < a.now.order }
    ensures few { result ≤ firsts_of a.now.words }
{
    accepted_certificates_follow();
    let _ = a.cert();
    a.element(heap)
}

/// The image of the element e, by the images of those below it.
fn image<A: Allocator>(
    a: &Certified<A>,
    b: &Certified<A>,
    images: &[u16],
    map: &[u16],
    e: u16,
) -> u16
    requires images { length images.now ≡ firsts_of a.now.words }
    requires images_in { All (λ y. y < b.now.order) images.now }
    requires map_in { All (λ y. y < b.now.order) map.now }
    requires e_in { e < a.now.order }
    requires long { length map.now ≡ e }
    requires must { (x : ℕ) → x < e
        → MustTake (claim_of a.now) (claim_of b.now) images.now x (slice_index map.now x) }
    ensures within { result < b.now.order }
    ensures must { MustTake (claim_of a.now) (claim_of b.now) images.now e result }
{
    let _ = a.cert();
    let _ = b.cert().order();
    if e == 0 {
        return 0;
    }
    if e as usize <= images.len() {
        return images[e as usize - 1];
    }
    let key = key_at(a, e);
    let heap = heap_element(a, key.1);
    b.times(map[key.0 as usize], map[heap as usize])
}

/// The images of all elements, by those of the first ones.
fn whole_map<A: Allocator, B: Allocator>(
    alloc: B,
    a: &Certified<A>,
    b: &Certified<A>,
    images: &[u16],
) -> Result<Vec<u16, B>, Memory>
    requires images { length images.now ≡ firsts_of a.now.words }
    requires images_in { All (λ y. y < b.now.order) images.now }
    ensures long { IfOk result (λ r. length r.items ≡ a.now.order) }
    ensures within { IfOk result (λ r. All (λ y. y < b.now.order) r.items) }
    ensures must { IfOk result (λ r. (x : ℕ) → x < a.now.order
        → MustTake (claim_of a.now) (claim_of b.now) images.now x (slice_index r.items x)) }
{
    let mut map: Vec<u16, B> = Vec::new(alloc);
    for e in 0..a.cert().order() {
        let y = image(a, b, images, map.as_slice(), e);
        map.push(y)?;
    }
    Ok(map)
}

/// The images with one more.
fn longer<B: Allocator>(alloc: B, images: &[u16], y: u16) -> Result<Vec<u16, B>, Memory>
    ensures { IfOk result (λ r. r.items ≡ images.now ++ y ∷ []) }
{
    let mut longer = Vec::with_capacity(alloc, images.len())?;
    longer.extend_from_slice(images)?;
    longer.push(y)?;
    Ok(longer)
}

/// What is known of the image of the next first element.
#[derive(Clone, Copy)]
enum NextImage {
    /// There is none.
    Nowhere,
    /// It is this one.
    Only(u16),
    /// Nothing is known.
    Any,
}

/// What is known of the image of the next first element, by those of the ones before it.
fn next_image<A: Allocator, B: Allocator + Copy>(
    alloc: B,
    a: &Certified<A>,
    b: &Certified<A>,
    images: &[u16],
) -> Result<NextImage, Memory>
    requires images_few { length images.now + 1 < a.now.order }
    requires images_in { All (λ y. y < b.now.order) images.now }
    ensures { IfOk result (IsNextImage (claim_of a.now) (claim_of b.now) images.now) }
{
    let known = forced(alloc, a, b, images)?;
    if known.clash {
        return Ok(NextImage::Nowhere);
    }
    match known.map[images.len() + 1] {
        Some(z) => Ok(NextImage::Only(z)),
        None => Ok(NextImage::Any),
    }
}

/// Whether x can't go to y, by what is known of its image and by colours.
fn is_left_out(next: NextImage, colours: &[u64], others: &[u64], x: usize, y: u16) -> bool
    requires x_in { x < length colours.now }
    requires y_in { y < length others.now }
    ensures out { IsTrue result
        → IsLeftOut next (slice_index colours.now x) (slice_index others.now y) y }
    ensures alike { result ≡ false → slice_index others.now y ≡ slice_index colours.now x }
{
    if colours[x] != others[y as usize] {
        return true;
    }
    match next {
        NextImage::Nowhere => true,
        NextImage::Only(z) => z != y,
        NextImage::Any => false,
    }
}

/// The one list of images alone that is left, once each first element has its image.
fn at_end<A: Allocator, B: Allocator>(
    alloc: B,
    a: &Certified<A>,
    b: &Certified<A>,
    images: &[u16],
) -> Result<MapSearch<B>, Memory>
    requires images { length images.now ≡ firsts_of a.now.words }
    requires images_in { All (λ y. y < b.now.order) images.now }
    ensures { IfOk result (λ r. (col other : ℕ → ℕ) (units : ℕ)
        → Searches (claim_of a.now) (claim_of b.now) col other images.now (length images.now) units
        units r) }
{
    let _ = a.cert();
    let map = whole_map(alloc, a, b, images)?;
    if is_map(a, b, map.as_slice()) {
        Ok(MapSearch::Map(map))
    } else {
        Ok(MapSearch::Nothing)
    }
}

/// The isomorphism that takes the first elements to these images, and further ones to any. Each
/// image that is tried takes a unit.
pub fn search<A: Allocator, B: Allocator + Copy>(
    alloc: B,
    a: &Certified<A>,
    b: &Certified<A>,
    colours: &[u64],
    others: &[u64],
    images: &[u16],
    units: &mut u64,
) -> Result<MapSearch<B>, Memory>
    requires colours_long { length colours.now ≡ a.now.order }
    requires others_long { length others.now ≡ b.now.order }
    requires colours { AreKept (claim_of a.now) (claim_of b.now) (slice_index colours.now)
        (slice_index others.now) }
    requires images { length images.now ≤ firsts_of a.now.words }
    requires images_in { All (λ y. y < b.now.order) images.now }
    ensures { IfOk result (Searches (claim_of a.now) (claim_of b.now) (slice_index colours.now)
        (slice_index others.now) images.now (firsts_of a.now.words) units.old units.new) }
{
    if images.len() == firsts(a) {
        return at_end(alloc, a, b, images);
    }
    let next = next_image(alloc, a, b, images)?;
    for y in 0..b.cert().order() {
        if is_left_out(next, colours, others, images.len() + 1, y) {
            continue;
        }
        if *units == 0 {
            return Ok(MapSearch::Long);
        }
        *units -= 1;
        let longer = longer(alloc, images, y)?;
        match search(alloc, a, b, colours, others, longer.as_slice(), units)? {
            MapSearch::Nothing => {}
            found => return Ok(found),
        }
    }
    Ok(MapSearch::Nothing)
}
