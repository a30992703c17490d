//! Matchings of the children of two thresholds.

/// No left child.
const NOBODY: u8 = u8::MAX;

/// Returns a bound on the steps of a matching: one for each pair of children; if there are weights other than 1, that
/// many for each child of the longer side.
pub fn steps_of(lefts: usize, rights: usize, is_of_ones: bool) -> u64 {
    let pairs = (lefts as u64).saturating_mul(rights as u64);
    if is_of_ones {
        pairs
    } else {
        pairs.saturating_mul(lefts.max(rights) as u64)
    }
}

/// A matching: the left child of each right child.
#[derive(Drop)]
pub struct Mates {
    mates: [u8; 64],
}

/// Finds a mate for a left child among the right children that weren't tried yet. Moves the mates of others if needed.
fn augment(edges: &[u64], left: u8, tried: &mut u64, mates: &mut [u8; 64], depth: u8) -> bool {
    if depth == 0 {
        return false;
    }
    let edge = edges.get(usize::from(left)).copied().unwrap_or(0);
    for _ in 0..64 {
        let open = edge & !*tried;
        if open == 0 {
            return false;
        }
        *tried |= open & open.wrapping_neg();
        let right = open.trailing_zeros() as usize;
        let mate = mates.get(right).copied().unwrap_or(NOBODY);
        if mate == NOBODY || augment(edges, mate, tried, mates, depth - 1) {
            if let Some(place) = mates.get_mut(right) {
                *place = left;
            }
            return true;
        }
    }
    false
}

/// No right child: the column from which a search for a mate starts.
const START: usize = 64;

/// A matching of greatest weight under construction (the Hungarian method): the left child of each right child, and
/// prices under which the pairs of the matching are the cheapest. A pair's cost is the negative of its weight.
#[derive(Drop)]
struct WeightedMatching<'e> {
    edges: &'e [u64],
    lefts: &'e [u8; 64],
    rights: &'e [u8; 64],
    /// The number of columns, at least that of the children on either side.
    columns: usize,
    mates: [u8; 65],
    left_prices: [i32; 65],
    right_prices: [i32; 65],
}

/// Returns the number at a place, 0 beyond the list.
fn at(list: &[i32; 65], place: usize) -> i32 {
    list.get(place).copied().unwrap_or(0)
}

/// Adds to the number at a place.
fn add(list: &mut [i32; 65], place: usize, number: i32) {
    if let Some(old) = list.get_mut(place) {
        *old = old.wrapping_add(number);
    }
}

/// A search for an augmenting path: the columns that were visited, and for each other column the least extra cost of a
/// path to it, and the column before it on that path.
#[derive(Drop)]
struct PathSearch {
    seen: u64,
    least: [i32; 65],
    from: [u8; 65],
}

impl PathSearch {
    /// Returns the unvisited column of least extra cost, among the first `columns`, and that cost.
    fn next(&self, columns: usize) -> (usize, i32) {
        let mut best = (START, i32::MAX);
        for column in 0..columns.min(64) {
            let more = at(&self.least, column);
            if (self.seen >> column) & 1 == 0 && more < best.1 {
                best = (column, more);
            }
        }
        best
    }
}

impl<'e> WeightedMatching<'e> {
    /// Returns the weight of a pair: the smaller of its two weights if it closes, else 0.
    fn weight(&self, left: u8, right: usize) -> i32 {
        let (edges, lefts, rights) = (self.edges, self.lefts, self.rights);
        let edge = edges.get(usize::from(left)).copied().unwrap_or(0);
        if right >= 64 || (edge >> right) & 1 == 0 {
            return 0;
        }
        let one = lefts.get(usize::from(left)).copied().unwrap_or(0);
        let other = rights.get(right).copied().unwrap_or(0);
        i32::from(one.min(other))
    }

    /// Returns a pair's cost above the sum of its prices.
    fn excess(&self, left: u8, right: usize) -> i32 {
        let prices = at(&self.left_prices, usize::from(left)).wrapping_add(at(
            &self.right_prices,
            right,
        ));
        0i32.wrapping_sub(self.weight(left, right))
            .wrapping_sub(prices)
    }

    /// Returns the left child at a column.
    fn mate(&self, column: usize) -> u8 {
        self.mates.get(column).copied().unwrap_or(NOBODY)
    }

    /// Lowers the cost of each unvisited column to that of the path through this column, if that is cheaper.
    fn relax(&self, search: &mut PathSearch, column: usize) {
        let left = self.mate(column);
        for right in 0..self.columns.min(64) {
            let more = self.excess(left, right);
            if (search.seen >> right) & 1 == 0 && more < at(&search.least, right) {
                if let (Some(least), Some(from)) = (
                    search.least.get_mut(right),
                    search.from.get_mut(right),
                ) {
                    *least = more;
                    *from = column.min(START) as u8;
                }
            }
        }
    }

    /// Changes the prices by the next column's extra cost.
    fn update_prices(&mut self, search: &mut PathSearch, by: i32) {
        let first = self.mate(START);
        add(&mut self.left_prices, usize::from(first), by);
        for column in 0..self.columns.min(64) {
            if (search.seen >> column) & 1 == 1 {
                let left = self.mate(column);
                add(&mut self.left_prices, usize::from(left), by);
                add(&mut self.right_prices, column, 0i32.wrapping_sub(by));
            } else {
                add(&mut search.least, column, 0i32.wrapping_sub(by));
            }
        }
    }

    /// Gives each column of the path the mate of the column before it.
    fn flip_path(&mut self, search: &PathSearch, mut column: usize) {
        for _ in 0..65 {
            if column == START {
                break;
            }
            let before = usize::from(search.from.get(column).copied().unwrap_or(64)).min(START);
            let mate = self.mate(before);
            if let Some(place) = self.mates.get_mut(column) {
                *place = mate;
            }
            column = before;
        }
    }

    /// Finds a mate for a left child by the augmenting path of least cost.
    fn place(&mut self, left: u8) {
        if let Some(start) = self.mates.get_mut(START) {
            *start = left;
        }
        let mut search = PathSearch {
            seen: 0,
            least: [i32::MAX; 65],
            from: [64; 65],
        };
        let mut column = START;
        for _ in 0..65 {
            self.relax(&mut search, column);
            let (next, more) = search.next(self.columns);
            if next >= START {
                return;
            }
            self.update_prices(&mut search, more);
            search.seen |= 1u64 << next;
            column = next;
            if self.mate(column) == NOBODY {
                self.flip_path(&search, column);
                return;
            }
        }
    }
}

/// Returns the weight of the children that close with some child of the other side.
fn weight_of_closed(edges: &[u64], lefts: &[u8; 64]) -> usize {
    let mut weight = 0usize;
    for (edge, left) in edges.iter().zip(lefts) {
        if *edge != 0 {
            weight = weight.saturating_add(usize::from(*left));
        }
    }
    weight
}

/// Returns the number of columns of the matching: one for each left child, and for each right one that closes with some
/// left child.
fn columns_of(edges: &[u64]) -> usize {
    let mut closed = 0u64;
    for edge in edges {
        closed |= *edge;
    }
    edges
        .len()
        .max(64usize.saturating_sub(closed.leading_zeros() as usize))
}

impl Mates {
    /// Returns a matching of closing pairs that weighs at least `wanted`, if there is one. A pair's weight is the
    /// smaller of its children's; `edges` has for each left child a bit for each right child that closes with it.
    pub fn heaviest(
        edges: &[u64],
        lefts: &[u8; 64],
        rights: &[u8; 64],
        wanted: usize,
    ) -> Option<Mates> {
        if weight_of_closed(edges, lefts) < wanted {
            return None;
        }
        let mut heaviest = WeightedMatching {
            edges,
            lefts,
            rights,
            columns: columns_of(edges),
            mates: [NOBODY; 65],
            left_prices: [0; 65],
            right_prices: [0; 65],
        };
        for left in 0..edges.len().min(64) as u8 {
            heaviest.place(left);
        }
        let mut mates = [NOBODY; 64];
        let mut weight = 0usize;
        for (right, place) in mates.iter_mut().enumerate() {
            let left = heaviest.mate(right);
            let more = heaviest.weight(left, right);
            if left != NOBODY && more > 0 {
                *place = left;
                weight = weight.saturating_add(more.unsigned_abs() as usize);
            }
        }
        (weight >= wanted).then_some(Mates { mates })
    }

    /// Returns a matching of `wanted` closing pairs, if there is one. `edges` has for each left child a bit for each
    /// right child that closes with it.
    pub fn find(edges: &[u64], wanted: usize) -> Option<Mates> {
        let mut mates = [NOBODY; 64];
        let mut pairs = 0usize;
        for left in 0..edges.len().min(64) as u8 {
            if pairs >= wanted {
                break;
            }
            let mut tried = 0u64;
            if augment(edges, left, &mut tried, &mut mates, 65) {
                pairs += 1;
            }
        }
        if pairs < wanted {
            return None;
        }
        Some(Mates { mates })
    }

    /// Returns the number of pairs.
    pub fn len(&self) -> usize {
        self.mates.iter().filter(|mate| **mate != NOBODY).count()
    }

    /// Returns the left child that is matched with a right one.
    pub fn of(&self, right: u8) -> Option<u8> {
        match self.mates.get(usize::from(right)) {
            Some(left) if *left != NOBODY => Some(*left),
            _ => None,
        }
    }

    /// Returns whether two children are matched.
    pub fn are_mates(&self, left: u8, right: u8) -> bool {
        self.of(right) == Some(left)
    }
}
