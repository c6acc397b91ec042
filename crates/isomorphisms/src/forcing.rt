//! What the images of the first elements force.
ghost use Rattle.std.specs.Prelude.{◌≡◌, ◌<◌, ℕ, IfOk, IsTrue, All, length, slice_index_or};
ghost use Rattle.misere_theory.specs.Certificates.{claim_of};
ghost use Rattle.isomorphisms.specs.Images.{AreForced, IsForced, NoneTakes};

use allocation::Memory;
use answers::Certified;
use std::alloc::Allocator;

/// Two elements, of which an isomorphism has to take the first to the second.
#[derive(Clone, Copy)]
pub struct Sent {
    pub from: u16,
    pub to: u16,
}

/// The images that follow, of the products of first elements, or that there are none.
#[derive(Drop)]
pub struct Known<B: Allocator> {
    pub map: Vec<Option<u16>, B>,
    pub clash: bool,
}

/// Puts down what two pairs force, the image of the product, if it is new, and answers whether it
/// contradicts what is known.
fn spread<A: Allocator, B: Allocator>(
    a: &Certified<A>,
    b: &Certified<A>,
    images: &[u16],
    map: &mut Vec<Option<u16>, B>,
    found: &mut Vec<Sent, B>,
    x: Sent,
    y: Sent,
) -> Result<bool, Memory>
    requires x { IsForced (claim_of a.now) (claim_of b.now) images.now x }
    requires y { IsForced (claim_of a.now) (claim_of b.now) images.now y }
    requires map { AreForced (claim_of a.now) (claim_of b.now) images.now map.old.items }
    requires found { All (IsForced (claim_of a.now) (claim_of b.now) images.now) found.old.items }
    ensures map { AreForced (claim_of a.now) (claim_of b.now) images.now map.new.items }
    ensures found { All (IsForced (claim_of a.now) (claim_of b.now) images.now) found.new.items }
    ensures clash { IfOk result (λ r. IsTrue r
        → NoneTakes (claim_of a.now) (claim_of b.now) images.now) }
{
    let _ = images;
    let from = a.times(x.from, y.from);
    let to = b.times(x.to, y.to);
    match map[from as usize] {
        Some(known) => Ok(known != to),
        None => {
            found.push(Sent { from, to })?;
            map[from as usize] = Some(to);
            Ok(false)
        }
    }
}

/// The pair of the first element number i + 1.
fn first_pair<A: Allocator>(a: &Certified<A>, b: &Certified<A>, images: &[u16], i: usize) -> Sent
    requires images_few { length images.now < a.now.order }
    requires images_in { All (λ y. y < b.now.order) images.now }
    requires i_in { i < length images.now }
    ensures { IsForced (claim_of a.now) (claim_of b.now) images.now result }
{
    let _ = a.cert().order();
    let _ = b.cert().order();
    Sent {
        from: i as u16 + 1,
        to: images[i],
    }
}

/// Puts down what a pair forces with each first element.
fn spread_all<A: Allocator, B: Allocator>(
    a: &Certified<A>,
    b: &Certified<A>,
    images: &[u16],
    map: &mut Vec<Option<u16>, B>,
    found: &mut Vec<Sent, B>,
    x: Sent,
) -> Result<bool, Memory>
    requires images_few { length images.now < a.now.order }
    requires images_in { All (λ y. y < b.now.order) images.now }
    requires x { IsForced (claim_of a.now) (claim_of b.now) images.now x }
    requires map { AreForced (claim_of a.now) (claim_of b.now) images.now map.old.items }
    requires found { All (IsForced (claim_of a.now) (claim_of b.now) images.now) found.old.items }
    ensures map { AreForced (claim_of a.now) (claim_of b.now) images.now map.new.items }
    ensures found { All (IsForced (claim_of a.now) (claim_of b.now) images.now) found.new.items }
    ensures clash { IfOk result (λ r. IsTrue r
        → NoneTakes (claim_of a.now) (claim_of b.now) images.now) }
{
    for i in 0..images.len() {
        let y = first_pair(a, b, images, i);
        let clash = spread(a, b, images, map, found, x, y)?;
        if clash {
            return Ok(true);
        }
    }
    Ok(false)
}

/// No images.
fn nothing_known<B: Allocator>(alloc: B, order: u16) -> Result<Vec<Option<u16>, B>, Memory>
    ensures long { IfOk result (λ r. length r.items ≡ order) }
    ensures nothing { IfOk result (λ r. (k : ℕ) → k < order
        → slice_index_or r.items k None ≡ None) }
{
    let mut map: Vec<Option<u16>, B> = Vec::new(alloc);
    for _k in 0..order {
        map.push(None)?;
    }
    Ok(map)
}

/// What the images of the first elements force, of their products.
pub fn forced<A: Allocator, B: Allocator + Copy>(
    alloc: B,
    a: &Certified<A>,
    b: &Certified<A>,
    images: &[u16],
) -> Result<Known<B>, Memory>
    requires images_few { length images.now < a.now.order }
    requires images_in { All (λ y. y < b.now.order) images.now }
    ensures map { IfOk result (λ r.
        AreForced (claim_of a.now) (claim_of b.now) images.now r.map.items) }
    ensures clash { IfOk result (λ r. IsTrue r.clash
        → NoneTakes (claim_of a.now) (claim_of b.now) images.now) }
{
    let order = a.cert().order();
    let _ = b.cert().order();
    let mut map = nothing_known(alloc, order)?;
    let mut found: Vec<Sent, B> = Vec::new(alloc);
    let identity = Sent { from: 0, to: 0 };
    map[identity.from as usize] = Some(identity.to);
    found.push(identity)?;
    for at in 0..order as usize {
        if at >= found.len() {
            return Ok(Known { map, clash: false });
        }
        let x = found[at];
        let clash = spread_all(a, b, images, &mut map, &mut found, x)?;
        if clash {
            return Ok(Known { map, clash });
        }
    }
    Ok(Known { map, clash: false })
}
