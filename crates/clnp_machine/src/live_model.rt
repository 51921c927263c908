//! A live node as the labelled machine sees it: one system whose ports have links, its turns, and its runs over a transcript
//! of what came of each call on a link; and the laws of these.

pub mod laws;
