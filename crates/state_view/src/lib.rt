// One state of a pack seen through its length and stride.
#![tactic(auto)]

ghost use Rattle.std.specs.Prelude.{◌≡◌, ◌*◌, ltb};
ghost use Rattle.state_view.specs.View.{seen};

// Number e of the state is e strides past the slice's first number.
#[derive(Clone, Copy)]
pub struct AccumStateView<'a> {
    pub data: &'a [f64],
    pub len: usize,
    pub stride: usize,
}

// Whether number e lies past place `last`. By division: no product wraps, and a loop over e divides once, where it would test each product.
#[tactic(auto, using(crate::proofs::Places::over_none, crate::proofs::Places::over_by_division))]
fn is_past(e: usize, stride: usize, last: usize) -> bool
    ensures { result ≡ ltb last (e * stride) }
{
    if stride == 0 {
        return false;
    }
    last / stride < e
}

// Number e of the state whose first number is the slice's first; none where the state or the slice has none. Any numbers may be passed.
#[tactic(auto, unfolding(crate::specs::View::seen))]
pub fn strided_number(data: &[f64], len: usize, stride: usize, e: usize) -> Option<f64>
    ensures { result ≡ seen «data».now len stride e }
{
    if len <= e {
        return None;
    }
    let last = data.len().checked_sub(1)?;
    if is_past(e, stride, last) {
        return None;
    }
    Some(data[e * stride])
}

impl<'a> AccumStateView<'a> {
    // A view of the state whose first number is the slice's first.
    pub fn new(data: &'a [f64], len: usize, stride: usize) -> AccumStateView<'a>
        ensures { (result.«data» ≡ «data».entry) × (result.len ≡ len) × (result.stride ≡ stride) }
    {
        AccumStateView { data, len, stride }
    }

    // Number e of the state that the view shows.
    pub fn number_at(self, e: usize) -> Option<f64>
        ensures { result ≡ seen self.entry.«data».now self.entry.len self.entry.stride e }
    {
        strided_number(self.data, self.len, self.stride, e)
    }
}

// Number e of a state, by way of its view.
pub fn read_number(part: &[f64], len: usize, stride: usize, e: usize) -> Option<f64>
    ensures { result ≡ seen part.now len stride e }
{
    AccumStateView::new(part, len, stride).number_at(e)
}
