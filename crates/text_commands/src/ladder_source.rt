/// What a ladder is read from: the text of a drawing, and perhaps that of a second one, whose rungs stand behind the first's;
/// or, with the name of a program type in whatever case, that of a plant, where there is no second drawing.
#[derive(Clone, Copy, Debug)]
pub struct LadderSource<'a> {
    pub text: &'a str,
    pub program: Option<&'a str>,
    pub second: Option<&'a str>,
}
