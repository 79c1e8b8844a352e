// The chart point: the course and glide deviations of two words or records together. The definitions and their laws stand in specs/.
#![tactic(auto)]

// Two deviations in depth difference (document 01's term is a chart point).
#[derive(Clone, Copy)]
pub struct ChartPoint {
    pub course: f64,
    pub glide: f64,
}
